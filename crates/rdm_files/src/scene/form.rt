//! Readers of a file's values and keys.
ghost use Rattle.std.specs.Prelude.{◌≡◌, []};
ghost use Rattle.serde_json.specs.Data.{Data};
ghost use Rattle.serde_json.specs.View.{view};
ghost use Rattle.rdm_files.specs.Forms.{Reads, IsListOf, Has, MayHave, MayGive};

use crate::scene::fault::SceneFault;
use serde_json::Value;
use std::alloc::Global;
use std::marker::Model;

/// A form of values. Each form names the relation between a value and its meaning.
pub(crate) trait Form {
    /// The type of the meaning.
    type Out: Drop;

    /// The value means this.
    ghost says: { Self → Data → Self.Out → Type 0 };

    /// What is expected, for people.
    fn expected(&self) -> &'static str;

    /// Reads a value. A fault other than NoMemory means that the value isn't of this form.
    fn read(&self, alloc: Global, value: &Value) -> Result<Self::Out, SceneFault>
        ensures { Reads result (says self.now (view value.now)) };
}

/// A list of values of a form, `least` to `most` of them.
#[derive(Drop)]
pub(crate) struct ListOf<F> {
    pub(crate) form: F,
    pub(crate) least: usize,
    pub(crate) most: usize,
    pub(crate) expected: &'static str,
}

/// The items of a list, in order. Contracts see their list.
#[derive(Drop)]
pub(crate) struct Listed<T> {
    items: Vec<T>,
}

impl<T> Model for Listed<T> {
    ghost use Rattle.std.specs.Prelude.{List};

    ghost Value = { List T };

    ghost view = { λ l. l.items.items };
}

impl<T> Listed<T> {
    /// No items.
    pub(crate) fn new(alloc: Global) -> Listed<T>
        ensures { result ≡ [] }
    {
        Listed {
            items: Vec::new(alloc),
        }
    }

    /// The items.
    pub(crate) fn into_vec(self) -> Vec<T>
        ensures { result.items ≡ self }
    {
        self.items
    }
}

impl<F: Form> Form for ListOf<F> {
    type Out = Listed<F::Out>;

    ghost says = { λ l d xs. IsListOf F.Out (F.says l.form) l.least l.most d xs };

    fn expected(&self) -> &'static str {
        self.expected
    }

    fn read(&self, alloc: Global, value: &Value) -> Result<Listed<F::Out>, SceneFault> {
        let Some(values) = value.as_array() else {
            return Err(SceneFault::at(value, self.expected));
        };
        if values.len() < self.least || self.most < values.len() {
            return Err(SceneFault::at(value, self.expected));
        }
        let mut items = Vec::new(alloc);
        'items: for i in 0..values.len() {
            match self.form.read(alloc, &values[i]) {
                Ok(item) => {
                    if items.push(item).is_err() {
                        return Err(SceneFault::NoMemory);
                    }
                }
                Err(fault) => return Err(fault.in_item(i)),
            }
        }
        Ok(Listed { items })
    }
}

/// Reads the value under a key that an object must have.
pub(crate) fn required<F: Form>(
    alloc: Global,
    object: &Value,
    key: &'static str,
    form: &F,
) -> Result<F::Out, SceneFault>
    ensures { Reads result (Has key.now (F.says form.now) (view object.now)) }
{
    match object.get(key) {
        Some(value) => read_under(alloc, value, key, form),
        None if object.is_object() => Err(SceneFault::missing(form.expected()).under(key)),
        None => Err(SceneFault::at(object, "an object")),
    }
}

/// Reads the value under a key that may be absent, with this default.
pub(crate) fn optional<F: Form>(
    alloc: Global,
    object: &Value,
    key: &'static str,
    form: &F,
    default: F::Out,
) -> Result<F::Out, SceneFault>
    ensures { Reads result (MayHave key.now (F.says form.now) default (view object.now)) }
{
    match object.get(key) {
        Some(value) => read_under(alloc, value, key, form),
        None => Ok(default),
    }
}

/// Reads the value under a key that may be absent.
pub(crate) fn given<F: Form>(
    alloc: Global,
    object: &Value,
    key: &'static str,
    form: &F,
) -> Result<Option<F::Out>, SceneFault>
    ensures { Reads result (MayGive key.now (F.says form.now) (view object.now)) }
{
    match object.get(key) {
        Some(value) => match read_under(alloc, value, key, form) {
            Ok(out) => Ok(Some(out)),
            Err(fault) => Err(fault),
        },
        None => Ok(None),
    }
}

fn read_under<F: Form>(
    alloc: Global,
    value: &Value,
    key: &'static str,
    form: &F,
) -> Result<F::Out, SceneFault>
    ensures { Reads result (F.says form.now (view value.now)) }
{
    match form.read(alloc, value) {
        Ok(out) => Ok(out),
        Err(fault) => Err(fault.under(key)),
    }
}
