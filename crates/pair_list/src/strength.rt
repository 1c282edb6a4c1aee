//! Leaf names that name one cell.

ghost use Rattle.std.specs.Prelude.{◌≡◌, ◌↔◌, ◌+◌, Some, IsTrue, slice_get};
ghost use Rattle.std.specs.String.{string_bytes};
ghost use Rattle.pair_list.specs.Sites.{HasIndex, IsStrong};

use c_sites::numbered::Sites;

fn index_at(text: &[u8], i: usize) -> bool
    ensures { IsTrue result ↔ ((slice_get text.now i ≡ Some 91) × (slice_get text.now (i + 1) ≡ Some 93)) }
{
    if i >= text.len() {
        return false;
    }
    let next = i + 1;
    if next >= text.len() {
        return false;
    }
    text[i] == b'[' && text[next] == b']'
}

fn has_index(text: &[u8]) -> bool
    ensures { IsTrue result ↔ HasIndex text.now }
{
    for i in 0..text.len() {
        if index_at(text, i) {
            return true;
        }
    }
    false
}

/// Whether the leaf name names one cell: it is no array element's.
pub fn is_strong(sites: &Sites, name: u32) -> bool
    ensures { IsTrue result ↔ IsStrong sites.now name }
{
    let texts = sites.texts();
    if name == 0 {
        return false;
    }
    let i = name as usize - 1;
    if i >= texts.len() {
        return false;
    }
    !has_index(texts[i].as_bytes())
}
