//! Receipts of commits.

ghost use Rattle.std.specs.Prelude.{◌≡◌};
ghost use Rattle.session.specs.Books.{IsReceipt};

use crate::named::Named;
use crate::shelf::Token;
use std::marker::{Model, PhantomData};

/// What shows a commit.
#[derive(Drop)]
pub struct Receipt<N: Named> {
    pub(crate) id: u64,
    pub(crate) epoch: u64,
    pub(crate) number: u64,
    pub(crate) token: Token,
    of: PhantomData<N>,
}

impl<N: Named> Model for Receipt<N> {
    ghost use Rattle.table.specs.contracts.conds.Cond as cond_type;
    ghost use Rattle.table.specs.contracts.exprs.Expr as expr_type;
    ghost use Rattle.std.specs.Coded.{codes};
    ghost use Rattle.session.specs.Books.{IsReceipt, ReceiptState};

    ghost Value = { ReceiptState };

    ghost coded = { Prim.hlevel (codes, cond_type.the_row.coded, expr_type.the_row.coded) };

    ghost view = { λ r. record { id = r.id; epoch = r.epoch; number = r.number; token = r.token } };

    ghost invariant = { λ r. IsReceipt (N.shelf r.id) r.epoch r.number r.token };
}

impl<N: Named> Receipt<N> {
    pub(crate) fn new(id: u64, epoch: u64, number: u64, token: Token) -> Receipt<N>
        requires { IsReceipt (N.shelf id) epoch number token }
        ensures { result ≡ record { id = id; epoch = epoch; number = number; token = token } }
    {
        Receipt {
            id,
            epoch,
            number,
            token,
            of: PhantomData,
        }
    }

    /// The epoch of the manager that the commit is of: 0 from its opening on, and one more from each checkpoint on.
    pub fn epoch(&self) -> u64
        ensures { result ≡ self.now.epoch }
    {
        self.epoch
    }

    /// The number of the commit in its epoch.
    pub fn number(&self) -> u64
        ensures { result ≡ self.now.number }
    {
        self.number
    }

    /// A receipt equal to this one. It takes no memory.
    pub fn copy(&self) -> Receipt<N>
        ensures { result ≡ self.now }
    {
        Receipt::new(self.id, self.epoch, self.number, self.token.again())
    }
}
