//! Whether coalitions are the same.
ghost use Rattle.std.specs.Prelude.{◌≡◌};
ghost use Rattle.std.specs.List.{list_all};
ghost use Rattle.std.specs.Str.{bytes_eq};
ghost use Rattle.model_text_core.specs.ModelText.{all_same, are_same, is_same};

use fixed_core::Fixed;
use model_core::Coalitions;

/// Whether two numbers are the same.
fn same_number(a: Fixed, b: Fixed) -> bool
    ensures { result ≡ is_same a b }
{
    a.units() == b.units()
}

/// Whether two lists of sets are the same.
fn same_masks(a: &[u32], b: &[u32]) -> bool
    ensures { result ≡ bytes_eq a.now b.now }
{
    a == b
}

/// Whether two lists of numbers are the same.
fn same_weights(vs: &[Fixed], ws: &[Fixed]) -> bool
    ensures { result ≡ all_same vs.now ws.now }
{
    if vs.len() != ws.len() {
        return false;
    }
    for (i, v) in vs.iter().enumerate() {
        if !same_number(*v, ws[i]) {
            return false;
        }
    }
    true
}

/// Whether coalitions are the same.
fn are_same(a: &Coalitions, b: &Coalitions) -> bool
    ensures { result ≡ are_same a.now b.now }
{
    match a {
        Coalitions::Weights(vs) => match b {
            Coalitions::Weights(ws) => same_weights(vs.as_slice(), ws.as_slice()),
            Coalitions::Roots(_) => false,
        },
        Coalitions::Roots(qs) => match b {
            Coalitions::Weights(_) => false,
            Coalitions::Roots(rs) => same_masks(qs.as_slice(), rs.as_slice()),
        },
    }
}

/// Whether all boundaries have the coalitions of the first.
pub fn are_all_same(first: &Coalitions, others: &[Coalitions]) -> bool
    ensures { result ≡ list_all (are_same first.now) others.now }
{
    others.iter().all(|other| are_same(first, other))
}
