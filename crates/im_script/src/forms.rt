ghost use Rattle.std.specs.Prelude.{◌≡◌, ◌≤◌, length, slice_index};
ghost use Rattle.std.specs.List.{list_all};
ghost use Rattle.im_lex.specs.Bytes as bytes_of;
ghost use Rattle.im_script.specs.Forms as forms;
ghost use Rattle.im_values.specs.declared.limits.TheConstants.{MOST_LINE_BYTES};

use crate::form::Form;
use im_lex::{begins_comment, is_blank};
use im_values::limits::MOST_LINE_BYTES;

/// How many blanks begin a line.
pub fn blanks(line: &[u8]) -> usize
    ensures count { result ≡ forms.blanks_of line.now }
    ensures within { result ≤ length line.now }
{
    for (i, byte) in line.iter().enumerate() {
        if !is_blank(*byte) {
            return i;
        }
    }
    line.len()
}

/// Whether all the bytes are blanks.
fn all_blank(bytes: &[u8]) -> bool
    ensures { result ≡ list_all bytes_of.is_blank bytes.now }
{
    for byte in bytes {
        if !is_blank(*byte) {
            return false;
        }
    }
    true
}

/// The byte at a place, or 0 past the end.
fn byte_at(bytes: &[u8], i: usize) -> u8
    ensures { result ≡ slice_index bytes.now i }
{
    if i < bytes.len() { bytes[i] } else { 0 }
}

/// Whether it is `race>` and blanks. Its first byte tells most lines apart.
fn is_race(bytes: &[u8]) -> bool
    ensures { result ≡ forms.is_race bytes.now }
{
    if byte_at(bytes, 0) != b'r' || bytes.len() < 5 {
        return false;
    }
    let (front, rest) = bytes.split_at(5);
    front == b"race>".as_slice() && all_blank(rest)
}

/// Whether `1>` to `9>` stands at the front.
fn is_low(bytes: &[u8]) -> bool
    ensures { result ≡ forms.is_low bytes.now }
{
    let digit = byte_at(bytes, 0);
    b'1' <= digit && digit <= b'9' && byte_at(bytes, 1) == b'>'
}

/// Whether `10>` to `16>` stands at the front.
fn is_high(bytes: &[u8]) -> bool
    ensures { result ≡ forms.is_high bytes.now }
{
    let digit = byte_at(bytes, 1);
    byte_at(bytes, 0) == b'1' && b'0' <= digit && digit <= b'6' && byte_at(bytes, 2) == b'>'
}

/// Whether `bg>` stands at the front.
fn is_background(bytes: &[u8]) -> bool
    ensures { result ≡ forms.is_background bytes.now }
{
    byte_at(bytes, 0) == b'b' && byte_at(bytes, 1) == b'g' && byte_at(bytes, 2) == b'>'
}

/// The form of a line by what stands behind its blanks, of which there are so many.
fn form_behind(blanks: usize, bytes: &[u8]) -> Form
    requires { blanks ≤ MOST_LINE_BYTES }
    ensures { result ≡ forms.form_behind blanks bytes.now }
{
    if bytes.is_empty() {
        return Form::Skip;
    }
    if begins_comment(bytes) {
        return Form::Skip;
    }
    if is_race(bytes) {
        return Form::Race;
    }
    if is_low(bytes) {
        return Form::Session(
            u32::from(byte_at(bytes, 0).saturating_sub(b'0')),
            blanks + 2,
        );
    }
    if is_high(bytes) {
        return Form::Session(
            u32::from(byte_at(bytes, 1).saturating_sub(b'0' - 10)),
            blanks + 3,
        );
    }
    if is_background(bytes) {
        return Form::Background(blanks + 3);
    }
    Form::Bare
}

/// The form of a line.
pub fn form(line: &[u8]) -> Form
    ensures { result ≡ forms.form_of line.now }
{
    if line.len() > MOST_LINE_BYTES {
        return Form::Long;
    }
    let blanks = blanks(line);
    form_behind(blanks, &line[blanks..])
}

/// The first byte that is not blank, from 1, or 0 where there is none.
pub fn first(line: &[u8]) -> u64
    ensures { result ≡ forms.first_of line.now }
{
    let blanks = blanks(line);
    if blanks < line.len() {
        blanks as u64 + 1
    } else {
        0
    }
}

/// Whom a line names: a session, the background by 0, or nobody.
pub fn who(form: Form) -> Option<u32>
    ensures { result ≡ forms.who_of form }
{
    match form {
        Form::Session(number, _) => Some(number),
        Form::Background(_) => Some(0),
        Form::Long | Form::Skip | Form::Race | Form::Bare => None,
    }
}
