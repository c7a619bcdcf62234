//! Names of components and variants, and what stands before an ending.

ghost use Rattle.std.specs.Prelude.{◌≡◌, ◌&&◌, nat_le, option_copied};
ghost use Rattle.std.specs.List.{list_all};
ghost use Rattle.component_tree.specs.Names.{stem_of, is_good};

/// What stands before the ending, where the name has it.
pub(crate) fn stem<'a>(name: &'a str, ending: &str) -> Option<&'a str>
    ensures { option_copied result ≡ stem_of ending.now name.now }
{
    name.strip_suffix(ending)
}

/// Whether each byte is a visible one of ASCII.
fn all_visible(bytes: &[u8]) -> bool
    ensures { result ≡ list_all (λ b. nat_le 33 b && nat_le b 126) bytes.now }
{
    bytes.iter().all(|b| 33 <= *b && *b <= 126)
}

/// Whether a component or a variant may have the name.
pub(crate) fn is_good_name(name: &str) -> bool
    ensures { result ≡ is_good name.now }
{
    !name.is_empty() && name.len() <= 200 && all_visible(name.as_bytes())
}
