//! Forms that the parts of a JSON tree may have.
ghost use Rattle.std.specs.Prelude.{◌≡◌, Bool};
ghost use Rattle.std.specs.List.{list_all};
ghost use Rattle.serde_json.specs.Data.{Data};
ghost use Rattle.serde_json.specs.View.{view};
ghost use Rattle.serde_json.specs.Find.{get};
ghost use Rattle.json_trees.specs.Trees.{passes, passes_if_there};

use crate::looking::parts;
use serde_json::Value;

/// A form that a JSON tree may have.
pub trait Form {
    /// The test that is meant.
    ghost form: { Self → Data → Bool };

    /// Returns whether the tree has the form.
    fn fits(&self, value: &Value) -> bool
        ensures { result ≡ form self.now (view value.now) };
}

fn all_fit<F: Form>(form: &F, values: &[Value]) -> bool
    ensures { result ≡ list_all (λ v. F.form form.now (view v)) values.now }
{
    values.iter().all(|v| form.fits(v))
}

/// Returns whether the part at a key is there and has the form.
pub fn has<F: Form>(value: &Value, key: &str, form: &F) -> bool
    ensures { result ≡ passes (F.form form.now) (get key.now (view value.now)) }
{
    match value.get(key) {
        Some(part) => form.fits(part),
        None => false,
    }
}

/// Returns whether the part at a key is absent or has the form.
pub fn has_if_there<F: Form>(value: &Value, key: &str, form: &F) -> bool
    ensures { result ≡ passes_if_there (F.form form.now) (get key.now (view value.now)) }
{
    match value.get(key) {
        Some(part) => form.fits(part),
        None => true,
    }
}

/// A number of any kind.
#[derive(Clone, Copy, Debug)]
pub struct Number;

impl Form for Number {
    ghost use Rattle.json_trees.specs.Trees.{is_number};

    ghost form = { λ _. is_number };

    fn fits(&self, value: &Value) -> bool {
        value.is_number()
    }
}

/// A text.
#[derive(Clone, Copy, Debug)]
pub struct Text;

impl Form for Text {
    ghost use Rattle.json_trees.specs.Trees.{is_text};

    ghost form = { λ _. is_text };

    fn fits(&self, value: &Value) -> bool {
        value.is_string()
    }
}

/// A number or a text.
#[derive(Clone, Copy, Debug)]
pub struct Member;

impl Form for Member {
    ghost use Rattle.json_trees.specs.Trees.{is_member};

    ghost form = { λ _. is_member };

    fn fits(&self, value: &Value) -> bool {
        value.is_number() || value.is_string()
    }
}

/// A number, and a text too if texts are allowed.
#[derive(Clone, Copy, Debug)]
pub struct Numeric {
    /// Whether texts are allowed.
    pub texts: bool,
}

impl Form for Numeric {
    ghost use Rattle.json_trees.specs.Trees.{is_numeric};

    ghost form = { λ f. is_numeric f.texts };

    fn fits(&self, value: &Value) -> bool {
        value.is_number() || (self.texts && value.is_string())
    }
}

/// An array whose items all have the form.
#[derive(Clone, Copy, Debug)]
pub struct ArrayOf<F>(pub F);

impl<F: Form> Form for ArrayOf<F> {
    ghost use Rattle.json_trees.specs.Trees.{is_array_of};

    ghost form = { λ f. is_array_of (F.form f.0) };

    #[tactic(auto, using(crate::proofs::Values::all_views))]
    fn fits(&self, value: &Value) -> bool {
        value.is_array() && all_fit(&self.0, parts(value))
    }
}

/// An array of two items, of which the first has one form and the second another.
#[derive(Clone, Copy, Debug)]
pub struct PairOf<F, G>(pub F, pub G);

impl<F: Form, G: Form> Form for PairOf<F, G> {
    ghost use Rattle.json_trees.specs.Trees.{is_pair_of};

    ghost form = { λ f. is_pair_of (F.form f.0) (G.form f.1) };

    fn fits(&self, value: &Value) -> bool {
        match parts(value) {
            [first, second] => self.0.fits(first) && self.1.fits(second),
            _ => false,
        }
    }
}

/// Two items, of which the second has the form.
#[derive(Clone, Copy, Debug)]
pub struct SecondOf<F>(pub F);

impl<F: Form> Form for SecondOf<F> {
    ghost use Rattle.json_trees.specs.Trees.{parts, second_passes};

    ghost form = { λ f d. second_passes (F.form f.0) (parts d) };

    fn fits(&self, value: &Value) -> bool {
        match parts(value) {
            [_, second] => self.0.fits(second),
            _ => false,
        }
    }
}
