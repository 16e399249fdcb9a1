//! The 64 bytes of an entry of a directory: a number of four, and a field of 60 with the name, filled with zeros.

ghost use Rattle.std.specs.Prelude.{◌≡◌, ◌≢◌, ◌≤◌, ◌<◌, ◌&&◌, ◌==◌, ℕ, length, not, slice_index};
ghost use Rattle.lemmas.specs.Sums.{some_below};
ghost use Rattle.tree.specs.Names.{is_dots, is_name};
ghost use Rattle.image.specs.Entry.{has_name, is_field, is_padded, name_in};

/// The name, up to the first zero byte of the field.
pub fn name_of(entry: &[u8]) -> &[u8]
    requires { length entry.now ≡ 64 }
    ensures { result.now ≡ name_in (slice_index entry.now) }
{
    let field = &entry[4..];
    for (a, byte) in field.iter().enumerate() {
        if *byte == 0 {
            return &field[..a];
        }
    }
    field
}

/// Whether all 60 bytes are this name's, filled with zeros.
pub fn is_field(entry: &[u8], name: &[u8]) -> bool
    requires { length entry.now ≡ 64 }
    ensures { result ≡ is_field (slice_index entry.now) name.now }
{
    for a in 0..60 {
        let wanted = if a < name.len() { name[a] } else { 0 };
        if entry[4 + a] != wanted {
            return false;
        }
    }
    true
}

/// Whether all bytes are zero. It goes on after one that isn't, so that many are looked at together.
fn is_blank(bytes: &[u8]) -> bool
    ensures { result ≡ not (some_below (λ k. not (slice_index bytes.now k == 0)) (length bytes.now)) }
{
    let mut blank = true;
    for k in 0..bytes.len() {
        blank = both(blank, bytes[k] == 0);
    }
    blank
}

/// Whether both hold.
fn both(a: bool, b: bool) -> bool
    ensures { result ≡ (a && b) }
{
    a & b
}

/// Whether after a zero byte of the field all are zero. Nearly always all behind the name are, which is looked at first.
fn is_padded(entry: &[u8]) -> bool
    requires { length entry.now ≡ 64 }
    ensures { result ≡ is_padded (slice_index entry.now) }
{
    let behind = 4 + name_of(entry).len();
    if is_blank(&entry[behind..]) {
        return true;
    }
    for a in 0..59 {
        if entry[4 + a] == 0 && entry[5 + a] != 0 {
            return false;
        }
    }
    true
}

/// Whether the name is . or .., which stand in every directory.
fn is_dots(name: &[u8]) -> bool
    ensures { result ≡ is_dots name.now }
{
    name == b".".as_slice() || name == b"..".as_slice()
}

/// Whether a directory can have the name.
fn is_name(name: &[u8]) -> bool
    requires short { length name.now ≤ 60 }
    requires bytes { (k : ℕ) → k < length name.now → slice_index name.now k ≢ 0 }
    ensures { result ≡ is_name name.now }
{
    if name.is_empty() {
        return false;
    }
    if name.contains(&b'/') {
        return false;
    }
    !is_dots(name)
}

/// Whether the field is a name that a directory can have, filled with zeros.
pub fn is_name_field(entry: &[u8]) -> bool
    requires { length entry.now ≡ 64 }
    ensures { result ≡ has_name (slice_index entry.now) }
{
    is_padded(entry) && is_name(name_of(entry))
}
