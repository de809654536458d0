//! The places of a name in folders.

ghost use Rattle.std.specs.Prelude.{◌≡◌, ◌<◌, ◌≤◌, MatchOption, length, map, option_map};
ghost use Rattle.std.specs.List.{list_any};
ghost use Rattle.std.specs.Str.{bytes_eq};
ghost use Rattle.c25_fronts.specs.Folders.{begins_at_root, is_name_of, place_in, stands_alone};

use arrayvec::ArrayString;

/// The most bytes of a place in a folder: the system opens no longer name.
pub(crate) const LONGEST: usize = 4096;

/// The place of a name in a folder; there is none where it is too long.
pub(crate) fn place_in(folder: &str, name: &str) -> Option<ArrayString<LONGEST>>
    ensures { MatchOption result (4096 < length (place_in name.now folder.now)) (λ place. (place.bytes ≡ place_in name.now folder.now) × (length place.bytes ≤ 4096)) }
{
    if folder.len() + 1 + name.len() > LONGEST {
        return None;
    }
    let mut place = ArrayString::new();
    place.push_str(folder);
    place.push_str("/");
    place.push_str(name);
    Some(place)
}

/// Whether a name begins at the root of the file system.
fn begins_at_root(name: &str) -> bool
    ensures { result ≡ begins_at_root name.now }
{
    match name.as_bytes().first() {
        Some(byte) => *byte == b'/',
        None => false,
    }
}

/// Whether a name is one of these.
fn is_one_of(names: &[&str], name: &str) -> bool
    ensures { result ≡ list_any (bytes_eq name.now) (map (λ one. one.now) names.now) }
{
    for one in names {
        if name == *one {
            return true;
        }
    }
    false
}

/// Whether this name is given and is this one.
fn is_name_of(name: &str, given: Option<&str>) -> bool
    ensures { result ≡ is_name_of name.now (option_map (λ one. one.now) given.entry) }
{
    match given {
        Some(given) => name == given,
        None => false,
    }
}

/// Whether a name is one of these, where they are given.
fn is_beside(beside: &[Option<&str>], name: &str) -> bool
    ensures { result ≡ list_any (is_name_of name.now) (map (option_map (λ one. one.now)) beside.now) }
{
    for one in beside {
        if is_name_of(name, *one) {
            return true;
        }
    }
    false
}

/// Whether a name is tried only as it stands.
pub fn stands_alone(sources: &[&str], beside: &[Option<&str>], name: &str) -> bool
    ensures { result ≡ stands_alone (map (λ one. one.now) sources.now) (map (option_map (λ one. one.now)) beside.now) name.now }
{
    begins_at_root(name) || is_one_of(sources, name) || is_beside(beside, name)
}
