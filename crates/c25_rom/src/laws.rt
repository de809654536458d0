//! Laws of ROMs, each the contract of a function that does nothing.

ghost use Rattle.std.specs.Prelude.{◌≡◌, ◌<◌, ◌≤◌, ℕ, List, None, Ok, Err, Some, codes, length, slice_get, slice_index, All};
ghost use Rattle.std.specs.Ordering.{nat_cmp};
ghost use Rattle.std.specs.FinMap as words;
ghost use Rattle.c25_rom.specs.Bytes.{file_bytes, file_words, high, high_bytes, low, low_bytes, pair_words};
ghost use Rattle.c25_rom.specs.Checks.{crc32};
ghost use Rattle.c25_rom.specs.Rom.{rom_of, rom_words, word_at};
ghost use Rattle.c25_rom.specs.declared.byte_order.ByteOrder.{ByteOrder};
ghost use Rattle.c25_rom.specs.declared.fault.PastRom.{PastRom};

/// Each device of a ROM has as many bytes as the ROM has words, and the byte at an address is the half of the program's word
/// there, or of the fill where the program has none.
pub fn each_byte_is_a_half_of_its_word()
    ensures sized { (program : words.FinMap nat_cmp ℕ) (size fill : ℕ) → (length (high_bytes (rom_words program size fill)) ≡ size) × (length (low_bytes (rom_words program size fill)) ≡ size) }
    ensures high { (program : words.FinMap nat_cmp ℕ) (size fill address : ℕ) → address < size → slice_index (high_bytes (rom_words program size fill)) address ≡ high (word_at program fill address) }
    ensures low { (program : words.FinMap nat_cmp ℕ) (size fill address : ℕ) → address < size → slice_index (low_bytes (rom_words program size fill)) address ≡ low (word_at program fill address) }
{}

/// The bytes of words, as two devices and as one file in either order, are read back as these words.
pub fn written_bytes_are_read_back()
    ensures pair { (rom : List ℕ) → pair_words (high_bytes rom) (low_bytes rom) ≡ rom }
    ensures file { (order : ByteOrder) (rom : List ℕ) → file_words order (file_bytes order rom) ≡ rom }
{}

/// The words of two devices of as many bytes are written as the bytes of these devices.
pub fn words_that_are_read_are_written_again()
    ensures high { (highs lows : List ℕ) → length highs ≡ length lows → All (λ b. b < 256) lows → high_bytes (pair_words highs lows) ≡ highs }
    ensures low { (highs lows : List ℕ) → length highs ≡ length lows → All (λ b. b < 256) lows → low_bytes (pair_words highs lows) ≡ lows }
{}

/// A ROM has each word of its program at its address, and the fill where the program has none; and so have its two devices
/// where they are read.
pub fn a_rom_has_the_words_of_its_program()
    ensures program { (program : words.FinMap nat_cmp ℕ) (size fill address word : ℕ) (rom : List ℕ) → rom_of program size fill ≡ Ok rom → words.get program address ≡ Some word → slice_get rom address ≡ Some word }
    ensures read_back { (program : words.FinMap nat_cmp ℕ) (size fill address word : ℕ) (rom : List ℕ) → rom_of program size fill ≡ Ok rom → words.get program address ≡ Some word → slice_get (pair_words (high_bytes rom) (low_bytes rom)) address ≡ Some word }
    ensures fill { (program : words.FinMap nat_cmp ℕ) (size fill address : ℕ) (rom : List ℕ) → rom_of program size fill ≡ Ok rom → address < size → words.get program address ≡ None → slice_get rom address ≡ Some fill }
{}

/// A program that has no ROM of a size has a word at the address of the fault, which is that size or beyond.
pub fn a_refused_word_is_past_the_rom()
    ensures { (program : words.FinMap nat_cmp ℕ) (size fill : ℕ) (fault : PastRom) → rom_of program size fill ≡ Err fault → (size ≤ fault.address) × ((word : ℕ) × (words.get program fault.address ≡ Some word)) }
{}

/// The CRC-32 of the digits from 1 to 9 is the number that catalogues of such codes give as its check.
pub fn the_check_value_is_that_of_catalogues()
    ensures { crc32 (codes "123456789") ≡ 0xCBF43926 }
{}
