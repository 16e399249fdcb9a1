//! The first place that is free.

ghost use Rattle.std.specs.Prelude.{◌≡◌, is_none, position};

/// The first place that holds nothing.
pub(crate) fn first_free<T>(places: &[Option<T>]) -> Option<usize>
    ensures { result ≡ position is_none places.now }
{
    places.iter().position(|place| place.is_none())
}
