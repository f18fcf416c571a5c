// The refusals of every call, evaluated by the model.
ghost use Rattle.model.specs.Refusing.{RefusedInOrder};

// Every refusal, in its order. The number is that of a shut book's refusal.
pub fn refused_in_order() -> u32
    ensures { RefusedInOrder result }
{
    1
}
