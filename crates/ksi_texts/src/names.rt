// The name in the metadata of a named item.
ghost use Rattle.std.specs.Prelude.{◌≡◌, drop, option_map};
ghost use Rattle.ksi_texts.specs.Names.{is_named, name_in, name_inside};

/// The name that metadata has, none where it has another form: padding, the element of the name, and a zero byte at its end.
pub fn name_in(meta: &[u8]) -> Option<&[u8]>
    ensures { option_map (λ name. name.now) result ≡ name_in meta.now }
{
    if meta.starts_with(&[126, 1, 1, 1]) {
        return name_inside(behind(meta, 4));
    }
    if meta.starts_with(&[126, 2, 1, 1, 1]) {
        return name_inside(behind(meta, 5));
    }
    None
}

/// All but the first bytes, none where there are fewer.
pub(crate) fn behind(bytes: &[u8], count: usize) -> &[u8]
    ensures { result.now ≡ drop count bytes.now }
{
    if bytes.len() < count {
        &[]
    } else {
        bytes.split_at(count).1
    }
}

/// The name in an element, of which its length and its body are left.
fn name_inside(element: &[u8]) -> Option<&[u8]>
    ensures { option_map (λ name. name.now) result ≡ name_inside element.now }
{
    if is_named(element) {
        let (_, body) = element.split_at(1);
        Some(body.split_at(element.len() - 2).0)
    } else {
        None
    }
}

/// Whether the length is that of the body, and the body a name and a zero byte.
fn is_named(element: &[u8]) -> bool
    ensures { result ≡ is_named element.now }
{
    element.len() > 2 && element[0] as usize + 1 == element.len() && element[element.len() - 1] == 0
}
