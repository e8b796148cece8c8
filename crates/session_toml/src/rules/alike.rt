//! Which items of a list are the same, and the first that stands twice.
ghost use Rattle.std.specs.Prelude.{◌≡◌, option_copied, Bool};
ghost use Rattle.std.specs.List.{list_any};
ghost use Rattle.session_toml.specs.Rules as spec;

use session_model::SourceDecl;
use session_walk::{RegionText, RouteText, SendText};

/// Items of which no two are to be the same.
pub(crate) trait Alike {
    /// Whether two of them are.
    ghost same: { Self → Self → Bool };

    fn is_same(&self, other: &Self) -> bool
        ensures { result ≡ same self.now other.now };
}

impl Alike for SourceDecl {
    ghost use Rattle.session_toml.specs.Rules as spec;
    ghost use Rattle.std.specs.Prelude.{◌≡◌};

    ghost same = { spec.same_source };

    fn is_same(&self, other: &SourceDecl) -> bool {
        self.name == other.name
    }
}

impl Alike for RouteText {
    ghost use Rattle.session_toml.specs.Rules as spec;
    ghost use Rattle.std.specs.Prelude.{◌≡◌};

    ghost same = { spec.same_route };

    fn is_same(&self, other: &RouteText) -> bool {
        self.named.name == other.named.name
    }
}

impl Alike for SendText {
    ghost use Rattle.session_toml.specs.Rules as spec;
    ghost use Rattle.std.specs.Prelude.{◌≡◌};

    ghost same = { spec.same_send };

    fn is_same(&self, other: &SendText) -> bool {
        self.to == other.to
    }
}

impl Alike for RegionText {
    ghost use Rattle.session_toml.specs.Rules as spec;
    ghost use Rattle.std.specs.Prelude.{◌≡◌};

    ghost same = { spec.same_region };

    fn is_same(&self, other: &RegionText) -> bool {
        self.id == other.id
    }
}

fn any_same<T: Alike>(before: &[T], item: &T) -> bool
    ensures { result ≡ list_any (λ y. T.same y item.now) before.now }
{
    before.iter().any(|y| y.is_same(item))
}

/// The first item that is the same as one before it.
pub(crate) fn first_twice<T: Alike>(items: &[T]) -> Option<&T>
    ensures { option_copied result ≡ spec.first_twice T.same items.now }
{
    for (i, item) in items.iter().enumerate() {
        if any_same(&items[..i], item) {
            return Some(item);
        }
    }
    None
}
