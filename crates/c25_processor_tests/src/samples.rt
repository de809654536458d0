//! Tests of samples.

use crate::values::equal;
use c25_board::ports::Feed;
use c25_board::samples::read_samples;
use std::test::Fail;

#[test]
fn ports_take_in_turn(rt: HostRuntime) -> Result<(), Fail> {
    let mut samples = read_samples(rt.alloc(), "1 000A\n2 000B\n1 000C\n2 000D\n")?;
    let found = [
        samples.take(2),
        samples.take(1),
        samples.take(1),
        samples.take(1),
        samples.take(2),
        samples.take(2),
        samples.take(0),
        samples.take(16),
        samples.take(u16::MAX),
    ];
    let (a, b, c, d) = (Some(0xa), Some(0xb), Some(0xc), Some(0xd));
    equal(&rt, found, [b, a, c, None, d, None, None, None, None]);
    Ok(())
}
