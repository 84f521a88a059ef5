//! Short texts that stand in the value itself.
ghost use Rattle.std.specs.Prelude.{◌≡◌, ◌≤◌, length, take};

/// An array that begins with those bytes.
pub(crate) fn short_bytes<const N: usize>(text: &[u8]) -> [u8; N]
    requires { length text.now ≤ N }
    ensures { take (length text.now) result ≡ text.now }
{
    let mut bytes = [0; N];
    let (front, _) = bytes.split_at_mut(text.len());
    front.copy_from_slice(text);
    bytes
}
