//! Whether a list has an item.

ghost use Rattle.std.specs.Prelude.{◌≡◌, true};
ghost use Rattle.std.specs.List.{list_any};

/// Whether there is an item.
pub fn has_any<T>(items: &[T]) -> bool
    ensures { result ≡ list_any (λ x. true) items.now }
{
    !items.is_empty()
}
