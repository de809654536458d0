//! The state of a hex text's reading.

ghost use Rattle.std.specs.Prelude.{◌≡◌, ◌<◌, ◌^◌, vec_len};

/// The base, a cell for each byte address with the byte that was given there, and whether the end
/// line was met.
#[derive(Drop)]
pub(crate) struct Reader {
    pub base: usize,
    pub bytes: Vec<Option<u8>>,
    pub ended: bool,
    ghost base_in: { base < 2 ^ 32 },
    ghost sized: { vec_len bytes ≡ 131072 },
}
