//! The path of a log.
ghost use Rattle.std.specs.Prelude.{◌≡◌, is_some, option_copied, unwrap_or};

use pl_base::Name;

/// The path that an option names, else the usual one.
pub(crate) fn path_or<'a>(named: Option<&'a Name>, usual: &'a str) -> &'a str
    ensures { result.now ≡ unwrap_or (option_copied named.entry) usual.now }
{
    match named {
        Some(path) => path.text(),
        None => usual,
    }
}

/// Whether an option names the path.
pub(crate) fn is_named(named: Option<&Name>) -> bool
    ensures { result ≡ is_some (option_copied named.entry) }
{
    match named {
        Some(_) => true,
        None => false,
    }
}
