ghost use Rattle.std.specs.Prelude.{◌≡◌, IfOk};

use crate::text::EsText;
use es5_tree::SafeInt;
use opal_base::NoMemory;

/// A value (ECMA-262 5.1, section 8).
#[derive(Drop)]
pub enum EsValue {
    Undefined,
    Null,
    Bool(bool),
    Num(SafeInt),
    Str(EsText),
    /// An object, by its number.
    Obj(u32),
}

impl EsValue {
    /// The same value again; a text is shared.
    pub fn share(&self) -> Result<EsValue, NoMemory>
        ensures { IfOk result (λ value. value ≡ self.now) }
    {
        match self {
            EsValue::Undefined => Ok(EsValue::Undefined),
            EsValue::Null => Ok(EsValue::Null),
            EsValue::Bool(truth) => Ok(EsValue::Bool(*truth)),
            EsValue::Num(number) => Ok(EsValue::Num(*number)),
            EsValue::Str(text) => Ok(EsValue::Str(text.share()?)),
            EsValue::Obj(object) => Ok(EsValue::Obj(*object)),
        }
    }
}
