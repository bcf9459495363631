//! Words as they are printed, one behind another, with a space before each.

ghost use Rattle.std.specs.Prelude.{◌≡◌, ◌++◌, ◌∷◌, [], OnOk, decimal};
ghost use Rattle.hex.specs.Hex.{encode_lower};
ghost use Rattle.pg_words.specs.Numbers.{address_text};
ghost use Rattle.pg_words.specs.Digits.{flags_text};
ghost use Rattle.pg_words.specs.Names.{prot_text, share_text, access_text};
ghost use Rattle.pg_words.specs.Data.{data_text};

use crate::digits::hex_digits;
use cs_policy::{Access, Data, Prot};
use itoa::Buffer;
use std::alloc::{AllocError, Global};

/// Bytes as they are.
pub fn put(text: &mut Vec<u8>, bytes: &[u8]) -> Result<(), AllocError>
    ensures { OnOk result (text.new.items ≡ text.old.items ++ bytes.now) }
{
    text.extend_from_slice(bytes)?;
    Ok(())
}

/// A number in decimal.
pub fn put_number(text: &mut Vec<u8>, number: u64) -> Result<(), AllocError>
    ensures { OnOk result (text.new.items ≡ text.old.items ++ decimal number) }
{
    let mut buffer = Buffer::new();
    put(text, buffer.format(number).as_bytes())
}

/// Bytes in hex, two digits a byte.
pub fn put_hex(alloc: Global, text: &mut Vec<u8>, bytes: &[u8]) -> Result<(), AllocError>
    ensures { OnOk result (text.new.items ≡ text.old.items ++ encode_lower bytes.now) }
{
    let digits = hex_digits(alloc, bytes)?;
    put(text, digits.as_bytes())
}

/// A space.
fn put_space(text: &mut Vec<u8>) -> Result<(), AllocError>
    ensures { OnOk result (text.new.items ≡ text.old.items ++ 32 ∷ []) }
{
    text.push(b' ')?;
    Ok(())
}

/// One more word.
pub fn add_word(text: &mut Vec<u8>, word: &[u8]) -> Result<(), AllocError>
    ensures { OnOk result (text.new.items ≡ text.old.items ++ 32 ∷ word.now) }
{
    put_space(text)?;
    put(text, word)
}

/// One more number.
pub fn add_number(text: &mut Vec<u8>, number: u64) -> Result<(), AllocError>
    ensures { OnOk result (text.new.items ≡ text.old.items ++ 32 ∷ decimal number) }
{
    put_space(text)?;
    put_number(text, number)
}

/// One more name: a letter and a number.
pub fn add_name(text: &mut Vec<u8>, letter: u8, number: u32) -> Result<(), AllocError>
    ensures { OnOk result (text.new.items ≡ text.old.items ++ 32 ∷ letter ∷ decimal number) }
{
    put(text, &[b' ', letter])?;
    put_number(text, u64::from(number))
}

/// One more address.
pub fn add_address(alloc: Global, text: &mut Vec<u8>, addr: u64) -> Result<(), AllocError>
    ensures { OnOk result (text.new.items ≡ text.old.items ++ 32 ∷ address_text addr) }
{
    let word = format!(in alloc; " 0x{addr:x}")?;
    put(text, word.as_bytes())
}

/// One more word of hex digits.
pub fn add_hex(alloc: Global, text: &mut Vec<u8>, bytes: &[u8]) -> Result<(), AllocError>
    ensures { OnOk result (text.new.items ≡ text.old.items ++ 32 ∷ encode_lower bytes.now) }
{
    put_space(text)?;
    put_hex(alloc, text, bytes)
}

/// 32 bits as one more word of eight hex digits.
pub fn add_flags(alloc: Global, text: &mut Vec<u8>, flags: u32) -> Result<(), AllocError>
    ensures { OnOk result (text.new.items ≡ text.old.items ++ 32 ∷ flags_text flags) }
{
    add_hex(alloc, text, &flags.to_be_bytes())
}

/// The word of a protection.
fn prot_word(prot: Prot) -> &'static str
    ensures { result.now ≡ prot_text prot }
{
    match prot {
        Prot::R => "r--",
        Prot::RW => "rw-",
        Prot::RX => "r-x",
        Prot::RWX => "rwx",
    }
}

/// One more word, for what a region permits.
pub fn add_prot(text: &mut Vec<u8>, prot: Prot) -> Result<(), AllocError>
    ensures { OnOk result (text.new.items ≡ text.old.items ++ 32 ∷ prot_text prot) }
{
    add_word(text, prot_word(prot).as_bytes())
}

/// One more word, for whether writes change the file.
pub fn add_share(text: &mut Vec<u8>, shared: bool) -> Result<(), AllocError>
    ensures { OnOk result (text.new.items ≡ text.old.items ++ 32 ∷ share_text shared) }
{
    if shared {
        add_word(text, b"shared")
    } else {
        add_word(text, b"private")
    }
}

/// One more word, for what is asked of a page.
pub fn add_access(text: &mut Vec<u8>, access: Access) -> Result<(), AllocError>
    ensures { OnOk result (text.new.items ≡ text.old.items ++ 32 ∷ access_text access) }
{
    match access {
        Access::Read => add_word(text, b"r"),
        Access::Write => add_word(text, b"w"),
        Access::Execute => add_word(text, b"x"),
    }
}

/// One more word, for the data of a write.
pub fn add_data(alloc: Global, text: &mut Vec<u8>, piece: &Data) -> Result<(), AllocError>
    ensures { OnOk result (text.new.items ≡ text.old.items ++ 32 ∷ data_text piece.now) }
{
    match piece {
        Data::Hex(bytes) => add_hex(alloc, text, bytes.bytes()),
        Data::Fill { byte, count } => {
            put(text, b" fill:")?;
            put_hex(alloc, text, &[*byte])?;
            put(text, b":")?;
            put_number(text, u64::from(*count))
        }
    }
}
