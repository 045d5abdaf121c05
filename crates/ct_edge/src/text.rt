ghost use Rattle.std.specs.Prelude.{◌≡◌, ◌↔◌, IfSome, IsSome, IsUtf8};

use ct_base::Name;

/// Returns the name as text, which the system's calls take; `None` if it is not UTF-8.
pub fn text_of(name: &Name) -> Option<&str>
    ensures same { IfSome result (λ text. text.now ≡ name.entry.now) }
    ensures some { IsSome result ↔ IsUtf8 name.entry.now }
{
    std::str::from_utf8(name.bytes()).ok()
}
