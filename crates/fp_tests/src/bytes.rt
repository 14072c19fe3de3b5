ghost use Rattle.std.specs.Prelude.{◌≡◌, ◌<◌, ◌↔◌, length, IsSome, IfSome};

/// Bytes of a test, where they are fewer than 1,000, so that what reads them may be called.
pub fn short(bytes: &[u8]) -> Option<&[u8]>
    ensures same { IfSome result (λ found. found.now ≡ bytes.now) }
    ensures few { IfSome result (λ found. length found.now < 1000) }
    ensures some { IsSome result ↔ length bytes.now < 1000 }
{
    if bytes.len() < 1000 {
        Some(bytes)
    } else {
        None
    }
}
