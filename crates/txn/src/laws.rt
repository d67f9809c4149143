//! The law on which serializability rests, of the transactions of this crate. It is the contract of a function that
//! does nothing.

ghost use Rattle.std.specs.Prelude.{◌≡◌, List};
ghost use Rattle.assertion.specs.Declarations.{Declared, layouts_in};
ghost use Rattle.assertion.specs.Meaning.{State};
ghost use Rattle.siread.specs.Keys.{AlikeUnder};
ghost use Rattle.alone.specs.Alone.{IsSound, transaction, transaction_keys};
ghost use Rattle.alone.specs.States.{row_in};
ghost use Rattle.alone.specs.declared.statements.ResolvedStatement.{ResolvedStatement};

use alone::transactions_agree;

/// On two states that make no assertion false and hold the same rows under each key that it reads on the one, a
/// transaction answers the same, its refused statements and a refused COMMIT included, changes the same, and reads the
/// same keys.
pub fn agreement()
    ensures same { (declared : Declared) (one other : State) → IsSound declared one → IsSound declared other
        → (trace : List ResolvedStatement)
        → AlikeUnder (row_in (layouts_in declared)) (transaction_keys declared trace one) one other
        → transaction declared trace other ≡ transaction declared trace one }
    ensures keys { (declared : Declared) (one other : State) → IsSound declared one → IsSound declared other
        → (trace : List ResolvedStatement)
        → AlikeUnder (row_in (layouts_in declared)) (transaction_keys declared trace one) one other
        → transaction_keys declared trace other ≡ transaction_keys declared trace one }
{
    transactions_agree();
}
