//! The first of several faults.
ghost use Rattle.std.specs.Prelude.{◌≡◌};
ghost use Rattle.mc_tree.specs.Rules.{sooner as is_sooner, earliest};

use mc_tree::Fault;

fn sooner(a: Fault, b: Fault) -> bool
    ensures { result ≡ is_sooner a b }
{
    a.span.from < b.span.from || (a.span.from == b.span.from && a.kind.rank() < b.kind.rank())
}

/// The sooner of two.
pub fn earlier(a: Option<Fault>, b: Option<Fault>) -> Option<Fault>
    ensures { result ≡ earliest a b }
{
    match (a, b) {
        (None, b) => b,
        (Some(a), None) => Some(a),
        (Some(a), Some(b)) => { if sooner(b, a) { Some(b) } else { Some(a) } }
    }
}
