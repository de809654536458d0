//! ROMs: words, bytes and lines worked out by hand, their sums and their CRC-32 by zlib.

use crate::values::equal;
use c25_meaning_common::failure::Failure;
use c25_meaning_common::no_memory::NoMemory;
use c25_meaning_image::word_map::WordMap;
use c25_rom::byte_order::ByteOrder;
use c25_rom::fault::PastRom;
use c25_rom::shape::{Devices, RomShape, shape_of};
use c25_rom::{
    crc32, fault_line, file_bytes, file_words, high_bytes, lines_of, low_bytes, pair_words,
    rom_files, rom_words, sum_of,
};
use std::alloc::Global;
use std::test::Fail;

/// Words at 0, 1 and 3.
fn program(alloc: Global) -> Result<WordMap, NoMemory> {
    let mut words = WordMap::new(alloc);
    words.insert(3, 0xca05)?;
    words.insert(0, 0xff80)?;
    words.insert(1, 0x0003)?;
    Ok(words)
}

const WORDS: [u16; 4] = [0xff80, 0x0003, 0x1234, 0xca05];

#[test]
fn a_rom_has_words_and_the_fill(rt: HostRuntime) -> Result<(), Fail> {
    let alloc = rt.alloc();
    let words = program(alloc)?;
    let rom = rom_words(alloc, &words, 4, 0x1234).ok().ok_or("no ROM")?;
    equal(&rt, rom.as_slice(), WORDS.as_slice());
    let long = rom_words(alloc, &words, 65_536, 0xffff)
        .ok()
        .ok_or("no ROM")?;
    equal(&rt, long.len(), 65_536);
    equal(&rt, long.get(2).copied(), Some(0xffff));
    Ok(())
}

#[test]
fn a_word_past_the_rom_is_refused(rt: HostRuntime) -> Result<(), Fail> {
    let alloc = rt.alloc();
    let words = program(alloc)?;
    equal(&rt, past(alloc, &words, 3), Some(3));
    equal(&rt, past(alloc, &words, 1), Some(1));
    equal(&rt, past(alloc, &words, 0), Some(0));
    equal(&rt, past(alloc, &words, 4), None);
    let line = fault_line(alloc, &PastRom { address: 0x0812 })?;
    equal(&rt, line.as_str(), "rom:0812: 79 PastRom");
    Ok(())
}

/// The address that a ROM of so many words has no place for.
fn past(alloc: Global, words: &WordMap, size: usize) -> Option<u16> {
    match rom_words(alloc, words, size, 0xffff) {
        Err(Failure::Fault(fault)) => Some(fault.address),
        _ => None,
    }
}

#[test]
fn bytes_are_written_and_read_back(rt: HostRuntime) -> Result<(), Fail> {
    let alloc = rt.alloc();
    let high = high_bytes(alloc, &WORDS)?;
    let low = low_bytes(alloc, &WORDS)?;
    equal(&rt, high.as_slice(), [0xff, 0x00, 0x12, 0xca].as_slice());
    equal(&rt, low.as_slice(), [0x80, 0x03, 0x34, 0x05].as_slice());
    equal(&rt, pair_words(alloc, &high, &low)?.as_slice(), &WORDS);
    let first = [0xff, 0x80, 0x00, 0x03, 0x12, 0x34, 0xca, 0x05];
    let last = [0x80, 0xff, 0x03, 0x00, 0x34, 0x12, 0x05, 0xca];
    let bytes = file_bytes(alloc, &WORDS, ByteOrder::HighFirst)?;
    equal(&rt, bytes.as_slice(), first.as_slice());
    let bytes = file_bytes(alloc, &WORDS, ByteOrder::LowFirst)?;
    equal(&rt, bytes.as_slice(), last.as_slice());
    let words = file_words(alloc, &first, ByteOrder::HighFirst)?;
    equal(&rt, words.as_slice(), WORDS.as_slice());
    let words = file_words(alloc, &last, ByteOrder::LowFirst)?;
    equal(&rt, words.as_slice(), WORDS.as_slice());
    Ok(())
}

#[test]
fn sums_and_crcs_are_those_of_zlib(rt: HostRuntime) -> Result<(), Fail> {
    equal(&rt, (sum_of(b""), crc32(b"")), (0, 0));
    equal(
        &rt,
        (sum_of(b"123456789"), crc32(b"123456789")),
        (0x01dd, 0xcbf4_3926),
    );
    equal(&rt, (sum_of(&[0; 4]), crc32(&[0; 4])), (0, 0x2144_df1c));
    // 300 bytes FFh are 2AD4h, past 65,535.
    equal(
        &rt,
        (sum_of(&[0xff; 300]), crc32(&[0xff; 300])),
        (0x2ad4, 0x1c0a_1881),
    );
    Ok(())
}

#[test]
fn files_have_names_and_lines(rt: HostRuntime) -> Result<(), Fail> {
    let alloc = rt.alloc();
    let words = program(alloc)?;
    let rom = rom_words(alloc, &words, 8, 0xffff).ok().ok_or("no ROM")?;
    let files = rom_files(alloc, "f", Devices::Pair, &rom)?;
    equal(
        &rt,
        lines_of(alloc, &files)?.as_str(),
        "f.hi.bin 00008 bytes sum 06C4 crc32 DAB3A2DA\nf.lo.bin 00008 bytes sum 0583 crc32 F56E4471\n",
    );
    let files = rom_files(alloc, "f", Devices::File(ByteOrder::HighFirst), &rom)?;
    equal(
        &rt,
        lines_of(alloc, &files)?.as_str(),
        "f.bin 00016 bytes sum 0C47 crc32 5FC9D76A\n",
    );
    let files = rom_files(alloc, "f", Devices::File(ByteOrder::LowFirst), &rom)?;
    equal(
        &rt,
        lines_of(alloc, &files)?.as_str(),
        "f.bin 00016 bytes sum 0C47 crc32 73F0CAD8\n",
    );
    Ok(())
}

#[test]
fn sizes_are_from_1_to_10000h(rt: HostRuntime) {
    let pair = |size| {
        Some(RomShape {
            devices: Devices::Pair,
            size,
        })
    };
    equal(&rt, shape_of(b"4000"), pair(0x4000));
    equal(&rt, shape_of(b"10000"), pair(0x10000));
    equal(&rt, shape_of(b"000800"), pair(0x800));
    equal(&rt, shape_of(b"1"), pair(1));
    equal(&rt, shape_of(b"16"), pair(0x16));
    equal(&rt, shape_of(b"0"), None);
    equal(&rt, shape_of(b"10001"), None);
    equal(&rt, shape_of(b""), None);
    equal(&rt, shape_of(b"800h"), None);
    equal(&rt, shape_of(b"0x800"), None);
    equal(&rt, shape_of(b"8:800"), None);
    equal(&rt, shape_of(b"16:"), None);
    let high_first = Devices::File(ByteOrder::HighFirst);
    let low_first = Devices::File(ByteOrder::LowFirst);
    let file = |devices| Some(RomShape {
        devices,
        size: 0xfc0,
    });
    equal(&rt, shape_of(b"16:fc0"), file(high_first));
    equal(&rt, shape_of(b"16low:FC0"), file(low_first));
}
