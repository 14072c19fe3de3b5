//! Byte strings written in printable ASCII, so that different strings are written differently.
ghost use Rattle.std.specs.Prelude.{◌≡◌, ◌<◌, List, ℕ, ◌++◌, All, IfOk, OnOk, OnErr, string_bytes};
ghost use Rattle.fp_base.specs.Escape.{is_plain, hex_digit, escaped_byte, escaped_by, escaped_text, escaped_name, AreBytes, IsTextByte, IsNameByte};

use std::alloc::{AllocError, Global};

/// Appends the escaped text of `text`: each byte from 0x21 to 0x7E but `\` and `,` as itself, and each other byte as `\x` and two
/// lower-case hexadecimal digits. Where there is no memory, `to` stays as it was.
#[tactic(auto, unfolding(crate::specs::Escape::escaped_text))]
pub fn escape_text(text: &[u8], to: &mut Vec<u8>) -> Result<(), AllocError>
    ensures ok { OnOk result (to.new.items ≡ to.old.items ++ escaped_text text.now) }
    ensures err { OnErr result (to.new.items ≡ to.old.items) }
{
    append_escaped(b"\\,", text, to)
}

/// Appends the escaped name of `name`: its escaped text, but with `.`, `(` and `:` as hexadecimal digits too. Where there is no
/// memory, `to` stays as it was.
#[tactic(auto, unfolding(crate::specs::Escape::escaped_name))]
pub fn escape_name(name: &[u8], to: &mut Vec<u8>) -> Result<(), AllocError>
    ensures ok { OnOk result (to.new.items ≡ to.old.items ++ escaped_name name.now) }
    ensures err { OnErr result (to.new.items ≡ to.old.items) }
{
    append_escaped(b"\\,.(:", name, to)
}

/// The escaped name of `name`, as a text.
pub fn escaped_name_text(alloc: Global, name: &[u8]) -> Result<String, AllocError>
    ensures { IfOk result (λ text. string_bytes text ≡ escaped_name name.now) }
{
    let mut bytes = Vec::new(alloc);
    escape_name(name, &mut bytes)?;
    Ok(String::from_utf8(bytes).unwrap())
}

// Appends each byte of `text`, escaped where it is reserved or no printable one.
fn append_escaped(reserved: &[u8], text: &[u8], to: &mut Vec<u8>) -> Result<(), AllocError>
    ensures ok { OnOk result (to.new.items ≡ to.old.items ++ escaped_by reserved.now text.now) }
    ensures err { OnErr result (to.new.items ≡ to.old.items) }
{
    let start = to.len();
    for byte in text {
        if let Err(error) = append_byte(reserved, *byte, to) {
            to.truncate(start);
            return Err(error);
        }
    }
    Ok(())
}

fn append_byte(reserved: &[u8], byte: u8, to: &mut Vec<u8>) -> Result<(), AllocError>
    ensures ok { OnOk result (to.new.items ≡ to.old.items ++ escaped_byte reserved.now byte) }
    ensures err { OnErr result (to.new.items ≡ to.old.items) }
{
    if stays_plain(reserved, byte) {
        to.push(byte)?;
        Ok(())
    } else {
        to.extend_from_slice(&[
            b'\\',
            b'x',
            hex_digit_of(byte / 16),
            hex_digit_of(byte % 16),
        ])
    }
}

fn stays_plain(reserved: &[u8], byte: u8) -> bool
    ensures { result ≡ is_plain reserved.now byte }
{
    matches!(byte, 0x21..=0x7E) && !reserved.contains(&byte)
}

fn hex_digit_of(value: u8) -> u8
    requires { value < 16 }
    ensures { result ≡ hex_digit value }
{
    if value < 10 {
        b'0' + value
    } else {
        b'a' + (value - 10)
    }
}

/// Two laws: no two byte strings have one escaped text, and an escaped text has no comma and only printable bytes but space.
#[tactic(auto, using(crate::proofs::EscapeLemmas::text_laws))]
pub fn law_escaped_text()
    ensures injective { (a b : List ℕ) → AreBytes a → AreBytes b → escaped_text a ≡ escaped_text b → a ≡ b }
    ensures bytes { (text : List ℕ) → AreBytes text → All IsTextByte (escaped_text text) }
{}

/// Two laws: no two byte strings have one escaped name, and an escaped name has the bytes of an escaped text but `.`, `(` and `:`.
#[tactic(auto, using(crate::proofs::EscapeLemmas::name_laws))]
pub fn law_escaped_name()
    ensures injective { (a b : List ℕ) → AreBytes a → AreBytes b → escaped_name a ≡ escaped_name b → a ≡ b }
    ensures bytes { (name : List ℕ) → AreBytes name → All IsNameByte (escaped_name name) }
{}
