// What may be given once.
ghost use Rattle.std.specs.Prelude.{◌≡◌, IfErr};
ghost use Rattle.explain.specs.Once.{Once};

use crate::expected::Expected;

// A second value is refused as the caller says.
pub fn set_once<T: Drop>(slot: &mut Option<T>, value: T, refusal: Expected) -> Result<(), Expected>
    ensures once { Once result slot.old slot.new value }
    ensures refusal { IfErr result (λ e. e ≡ refusal) }
{
    if slot.is_some() {
        return Err(refusal);
    }
    *slot = Some(value);
    Ok(())
}
