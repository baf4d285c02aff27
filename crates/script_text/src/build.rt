//! Values of JSON, built piece by piece.

ghost use Rattle.std.specs.Prelude.{◌≡◌, [], ◌∷◌, ◌++◌, IfOk};
ghost use Rattle.serde_json.specs.Data.{boolean, string, object, no_members, put};
ghost use Rattle.serde_json.specs.View.{view};
ghost use Rattle.script_text.specs.Json.{whole, optional, row};
ghost use Rattle.script_text.specs.Form.{path_data};
ghost use Rattle.script_text.specs.Built.{data_in, members_in};

use hops_base::{NoMemory, Path};
use serde_json::{Map, Value};
use std::alloc::Global;

/// An array that is being built.
#[derive(Debug, Drop)]
pub struct Row {
    values: Vec<Value>,
}

impl Row {
    /// The empty array.
    pub fn new(alloc: Global) -> Row
        ensures { data_in result ≡ [] }
    {
        Row {
            values: Vec::new(alloc),
        }
    }

    /// The array of this word.
    pub fn of(alloc: Global, word: &str) -> Result<Row, NoMemory>
        ensures { IfOk result (λ row. data_in row ≡ string word.now ∷ []) }
    {
        Row::new(alloc).text(word)
    }

    /// Adds a value at the end.
    pub fn with(self, value: Value) -> Result<Row, NoMemory>
        ensures { IfOk result (λ row. data_in row ≡ data_in self ++ view value ∷ []) }
    {
        let mut values = self.values;
        values.push(value)?;
        Ok(Row { values })
    }

    /// Adds a text.
    pub fn text(self, text: &str) -> Result<Row, NoMemory>
        ensures { IfOk result (λ row. data_in row ≡ data_in self ++ string text.now ∷ []) }
    {
        let alloc = *self.values.allocator();
        self.with(Value::try_from_str(alloc, text)?)
    }

    /// Adds a whole number.
    pub fn number(self, number: u64) -> Result<Row, NoMemory>
        ensures { IfOk result (λ row. data_in row ≡ data_in self ++ whole number ∷ []) }
    {
        self.with(Value::from(number))
    }

    /// Adds a truth value.
    pub fn truth(self, truth: bool) -> Result<Row, NoMemory>
        ensures { IfOk result (λ row. data_in row ≡ data_in self ++ boolean truth ∷ []) }
    {
        self.with(Value::from(truth))
    }

    /// Adds a number that may be absent.
    pub fn optional(self, number: Option<u64>) -> Result<Row, NoMemory>
        ensures { IfOk result (λ row. data_in row ≡ data_in self ++ optional number ∷ []) }
    {
        self.with(optional_value(number))
    }

    /// Adds a path.
    pub fn path(self, path: &Path) -> Result<Row, NoMemory>
        ensures { IfOk result (λ row. data_in row ≡ data_in self ++ path_data path.now ∷ []) }
    {
        self.with(path_value(path)?)
    }

    /// The array.
    pub fn value(self) -> Value
        ensures { view result ≡ row (data_in self) }
    {
        Value::from(self.values)
    }
}

/// An object that is being built. Its members stand in the byte order of their keys.
#[derive(Debug, Drop)]
pub struct Fields {
    alloc: Global,
    map: Map<String, Value>,
}

impl Fields {
    /// The object without members.
    pub fn new(alloc: Global) -> Fields
        ensures { members_in result ≡ no_members }
    {
        Fields {
            alloc,
            map: Map::new(alloc),
        }
    }

    /// Sets the member of this key.
    pub fn with(self, key: &str, value: Value) -> Result<Fields, NoMemory>
        ensures { IfOk result (λ fields. members_in fields ≡ put key.now (view value) (members_in self)) }
    {
        let Fields { alloc, mut map } = self;
        let key = String::from_str(alloc, key)?;
        map.insert(key, value)?;
        Ok(Fields { alloc, map })
    }

    /// Sets a member to a text.
    pub fn text(self, key: &str, text: &str) -> Result<Fields, NoMemory>
        ensures { IfOk result (λ fields. members_in fields ≡ put key.now (string text.now) (members_in self)) }
    {
        let value = Value::try_from_str(self.alloc, text)?;
        self.with(key, value)
    }

    /// Sets a member to a whole number.
    pub fn number(self, key: &str, number: u64) -> Result<Fields, NoMemory>
        ensures { IfOk result (λ fields. members_in fields ≡ put key.now (whole number) (members_in self)) }
    {
        self.with(key, Value::from(number))
    }

    /// Sets a member to a truth value.
    pub fn truth(self, key: &str, truth: bool) -> Result<Fields, NoMemory>
        ensures { IfOk result (λ fields. members_in fields ≡ put key.now (boolean truth) (members_in self)) }
    {
        self.with(key, Value::from(truth))
    }

    /// Sets a member to a number that may be absent.
    pub fn optional(self, key: &str, number: Option<u64>) -> Result<Fields, NoMemory>
        ensures { IfOk result (λ fields. members_in fields ≡ put key.now (optional number) (members_in self)) }
    {
        self.with(key, optional_value(number))
    }

    /// Sets a member to a path.
    pub fn path(self, key: &str, path: &Path) -> Result<Fields, NoMemory>
        ensures { IfOk result (λ fields. members_in fields ≡ put key.now (path_data path.now) (members_in self)) }
    {
        self.with(key, path_value(path)?)
    }

    /// The object.
    pub fn value(self) -> Value
        ensures { view result ≡ object (members_in self) }
    {
        Value::from(self.map)
    }
}

// The value of a number that may be absent.
fn optional_value(number: Option<u64>) -> Value
    ensures { view result ≡ optional number }
{
    match number {
        None => Value::Null,
        Some(number) => Value::from(number),
    }
}

// The value of a path, which is its text.
fn path_value(path: &Path) -> Result<Value, NoMemory>
    ensures { IfOk result (λ value. view value ≡ path_data path.now) }
{
    Ok(Value::from(path.text()?))
}
