//! An input: a module text, a line that is exactly `%%`, and a job.

ghost use Rattle.std.specs.Prelude.{◌≡◌, ◌<◌, ◌≤◌, ◌+◌, ℕ, IsTrue, ◌↔◌, MatchOption, length};
ghost use Rattle.td_cli_input.specs.Marker.{BeginsLine, EndsLine, IsMarker, IsFirstMarker, module_part, job_part};

use td_num::bytes::byte_or_zero;

fn begins_line(input: &[u8], n: usize) -> bool
    ensures { IsTrue result ↔ BeginsLine input.now n }
{
    n == 0 || byte_or_zero(input, n - 1) == b'\n'
}

fn ends_line(input: &[u8], n: usize) -> bool
    ensures { IsTrue result ↔ EndsLine input.now n }
{
    n == input.len() || byte_or_zero(input, n) == b'\n'
}

fn is_marker(input: &[u8], n: usize) -> bool
    requires { n < length input.now }
    ensures { IsTrue result ↔ IsMarker input.now n }
{
    input[n] == b'%'
        && byte_or_zero(input, n + 1) == b'%'
        && begins_line(input, n)
        && ends_line(input, n + 2)
}

/// The place of the first line that is exactly `%%`: its first byte, from 0. None where no line is.
pub(crate) fn find_marker(input: &[u8]) -> Option<usize>
    ensures { MatchOption result ((n : ℕ) → IsMarker input.now n → ⊥) (IsFirstMarker input.now) }
{
    for n in 0..input.len() {
        if is_marker(input, n) {
            return Some(n);
        }
    }
    None
}

/// The module text of an input whose marker stands at n: the bytes before it.
pub(crate) fn module_part(input: &[u8], n: usize) -> &[u8]
    requires { n ≤ length input.now }
    ensures { result.now ≡ module_part input.now n }
{
    &input[..n]
}

/// The job of an input whose marker stands at n: the bytes after its line.
pub(crate) fn job_part(input: &[u8], n: usize) -> &[u8]
    requires { n < length input.now }
    ensures { result.now ≡ job_part input.now n }
{
    match input.get(n + 3..) {
        Some(job) => job,
        None => &[],
    }
}
