//! Where a place of a file is shown.

ghost use Rattle.std.specs.Prelude.{◌≡◌, ◌≤◌, length};
ghost use Rattle.pl_text.specs.Lines.{line_of, column_of};

/// The line and the column of the place `at`, both counted from 1, the column in bytes.
///
/// The time is linear in `at`.
pub fn line_column(bytes: &[u8], at: u32) -> (u32, u32)
    requires within { at ≤ length bytes.now }
    requires few { at ≤ 16777216 }
    ensures line { result.0 ≡ line_of bytes.now at }
    ensures column { result.1 ≡ column_of bytes.now at }
{
    let mut line = 1;
    let mut column = 1;
    for b in &bytes[..at as usize] {
        if *b == b'\n' {
            line += 1;
            column = 1;
        } else {
            column += 1;
        }
    }
    (line, column)
}
