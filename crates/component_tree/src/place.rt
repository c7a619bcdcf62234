//! Where a component file stands, in whichever folder.

ghost use Rattle.std.specs.Prelude.{◌≡◌, refl};
ghost use Rattle.std.specs.Cmp.{partial_order_from_total, partial_equiv_from_equiv, eq_by_cmp_equiv};
ghost use Rattle.std.specs.Option.{option_cmp};
ghost use Rattle.std.specs.Ordering.{nat_cmp, as_partial_cmp, eq_by_cmp};
ghost use Rattle.std.specs.Cmp.Lexicographic.{slice_cmp};
ghost use Rattle.component_tree.specs.Places.{place_cmp, place_total};

use pl_base::Name;
use std::cmp::Ordering;

/// A component's own file, or one of its variants' files.
#[derive(Debug, Drop)]
pub(crate) struct Place {
    /// The component's id.
    pub id: Name,
    /// The name of the variant's file, and none for the component's own file.
    pub file: Option<Name>,
}

fn compare_files(a: &Option<Name>, b: &Option<Name>) -> Ordering
    ensures { result ≡ option_cmp (slice_cmp nat_cmp) a.now b.now }
{
    match (a, b) {
        (None, None) => Ordering::Equal,
        (None, Some(_)) => Ordering::Less,
        (Some(_), None) => Ordering::Greater,
        (Some(x), Some(y)) => x.text().cmp(y.text()),
    }
}

/// By the bytes of the ids, then a component's own file before those of its variants, and these by
/// the bytes of their files' names.
impl Ord for Place {
    ghost cmp = { place_cmp };

    ghost total = { place_total };

    ghost matches_partial_cmp = { λ _ _. refl };

    ghost matches_eq = { λ _ _. refl };

    fn cmp(&self, other: &Place) -> Ordering {
        let by_id = self.id.text().cmp(other.id.text());
        by_id.then(compare_files(&self.file, &other.file))
    }
}

impl PartialOrd for Place {
    ghost partial_cmp = { as_partial_cmp place_cmp };

    ghost laws = { partial_order_from_total place_total };

    fn partial_cmp(&self, other: &Place) -> Option<Ordering> {
        Some(self.cmp(other))
    }
}

impl PartialEq for Place {
    ghost eq = { eq_by_cmp place_cmp };

    ghost laws = { partial_equiv_from_equiv (eq_by_cmp_equiv place_total) };

    fn eq(&self, other: &Place) -> bool {
        self.cmp(other) == Ordering::Equal
    }
}

impl Eq for Place {
    ghost laws = { eq_by_cmp_equiv place_total };
}
