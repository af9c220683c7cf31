// Writing texts into bytes.
ghost use Rattle.std.specs.Prelude.{◌≡◌, ◌+◌, ◌≤◌, ◌++◌, length, take};

/// Writes a text after the first `at` bytes, and returns the index of its end.
#[inline(always)]
pub fn write_at(bytes: &mut [u8], at: usize, text: &[u8]) -> usize
    requires { at + length text.now ≤ length bytes.old }
    ensures end { result ≡ at + length text.now }
    ensures written { take result bytes.new ≡ take at bytes.old ++ text.now }
{
    let end = at + text.len();
    bytes[at..end].copy_from_slice(text);
    end
}
