//! The constants that stand for the numbers of a text, from the left.

ghost use Rattle.std.specs.Prelude.{◌≡◌, ◌≢◌, IfOk, IfErr, Ok, Err};
ghost use Rattle.prepared.specs.declared.faults.FillFault.TheVariants.{NoMemory};
ghost use Rattle.syntax.specs.declared.statements.UpdateSource.TheVariants as to;
ghost use Rattle.syntax.specs.declared.trees.Expression.TheVariants as e;
ghost use Rattle.value.specs.declared.values.Value.TheVariants as v;
ghost use Rattle.prepared.specs.Constants as spec;

use crate::faults::FillFault;
use std::marker::Model;
use syntax::{Expression, UpdateSource};
use value::Value;

/// The largest number of the language.
const LARGEST_NUMBER: u64 = 1_000_000_000_000_000;

/// A value for a parameter, which is counted from 1.
#[derive(Drop)]
struct Argument<'a> {
    parameter: usize,
    value: &'a Value,
}

impl<'a> Model for Argument<'a> {
    ghost use Rattle.prepared.specs.Constants.{Argument};

    ghost Value = { Argument };

    ghost view = { λ g. record { parameter = g.parameter; value = g.value.now } };
}

impl<'a> Argument<'a> {
    /// A copy of the value, if a constant may be so.
    fn constant(&self) -> Result<Value, FillFault>
        ensures made { IfOk result (λ made. spec.constant_of self.now ≡ Ok made) }
        ensures refused { IfErr result (λ fault. fault ≢ NoMemory → spec.constant_of self.now ≡ Err fault) }
    {
        let parameter = self.parameter;
        match self.value {
            Value::Null => Ok(Value::Null),
            Value::Int(number) => {
                if number.unsigned_abs() > LARGEST_NUMBER {
                    return Err(FillFault::NumberOutOfRange { parameter });
                }
                Ok(Value::Int(*number))
            }
            Value::Text(text) => {
                if !text.is_plain() {
                    return Err(FillFault::TextNotPlain { parameter });
                }
                Ok(Value::Text(text.copy()?))
            }
        }
    }

    /// The value as an expression, of which none is NULL.
    fn expression(&self) -> Result<Expression, FillFault>
        ensures made { IfOk result (λ made. spec.expression_of self.now ≡ Ok made) }
        ensures refused { IfErr result (λ fault. fault ≢ NoMemory → spec.expression_of self.now ≡ Err fault) }
    {
        match self.constant()? {
            Value::Null => Err(FillFault::NullNotAllowed {
                parameter: self.parameter,
            }),
            Value::Int(number) => Ok(Expression::Number(number)),
            Value::Text(text) => Ok(Expression::Text(text)),
        }
    }

    /// The value as what an UPDATE gives to a column.
    fn assigned(&self) -> Result<UpdateSource, FillFault>
        ensures made { IfOk result (λ made. spec.assigned_of self.now ≡ Ok made) }
        ensures refused { IfErr result (λ fault. fault ≢ NoMemory → spec.assigned_of self.now ≡ Err fault) }
    {
        match self.constant()? {
            Value::Null => Ok(UpdateSource::Null),
            Value::Int(number) => Ok(UpdateSource::To(Expression::Number(number))),
            Value::Text(text) => Ok(UpdateSource::To(Expression::Text(text))),
        }
    }
}

/// The value of a parameter.
fn find_value<'a>(parameter: Option<usize>, values: &'a [Value]) -> Option<Argument<'a>>
    ensures { result ≡ spec.value_of values.now parameter }
{
    let at = parameter?;
    let value = values.get(at)?;
    Some(Argument {
        parameter: at + 1,
        value,
    })
}

/// For each number that is left, from the left, the value that stands in its place, if it is a parameter.
#[derive(Drop)]
pub struct Constants<'a> {
    numbers: &'a [Option<usize>],
    values: &'a [Value],
}

impl<'a> Model for Constants<'a> {
    ghost use Rattle.prepared.specs.Constants.{Constants, constants_of};

    ghost Value = { Constants };

    ghost view = { λ c. constants_of c.numbers.now c.values.now };
}

impl<'a> Constants<'a> {
    /// The values for these numbers.
    pub fn new(numbers: &'a [Option<usize>], values: &'a [Value]) -> Constants<'a>
        ensures { result ≡ spec.constants_of numbers.now values.now }
    {
        Constants { numbers, values }
    }

    /// What stands in the place of the next number, which is passed.
    fn take(&mut self) -> Option<Argument<'a>>
        ensures { spec.first_and_rest self.old ≡ (result, self.new) }
    {
        let Some((first, rest)) = self.numbers.split_first() else {
            return None;
        };
        self.numbers = rest;
        find_value(*first, self.values)
    }

    /// What the next number is in an expression.
    ///
    /// # Errors
    ///
    /// The fault of its value, where that may not stand there, or NoMemory.
    pub fn expression(&mut self, number: i64) -> Result<Expression, FillFault>
        ensures made { IfOk result (λ made.
            spec.next spec.expression_of (e.Number number) self.old ≡ Ok (made, self.new)) }
        ensures refused { IfErr result (λ fault. fault ≢ NoMemory
            → spec.next spec.expression_of (e.Number number) self.old ≡ Err fault) }
    {
        match self.take() {
            None => Ok(Expression::Number(number)),
            Some(given) => given.expression(),
        }
    }

    /// What the next number is where it is all that an UPDATE gives to a column, with the errors of an expression.
    pub fn assigned(&mut self, number: i64) -> Result<UpdateSource, FillFault>
        ensures made { IfOk result (λ made.
            spec.next spec.assigned_of (to.To (e.Number number)) self.old ≡ Ok (made, self.new)) }
        ensures refused { IfErr result (λ fault. fault ≢ NoMemory
            → spec.next spec.assigned_of (to.To (e.Number number)) self.old ≡ Err fault) }
    {
        match self.take() {
            None => Ok(UpdateSource::To(Expression::Number(number))),
            Some(given) => given.assigned(),
        }
    }

    /// What the next number is as a value of an INSERT, with the errors of an expression.
    pub fn constant(&mut self, number: i64) -> Result<Value, FillFault>
        ensures made { IfOk result (λ made.
            spec.next spec.constant_of (v.Int number) self.old ≡ Ok (made, self.new)) }
        ensures refused { IfErr result (λ fault. fault ≢ NoMemory
            → spec.next spec.constant_of (v.Int number) self.old ≡ Err fault) }
    {
        match self.take() {
            None => Ok(Value::Int(number)),
            Some(given) => given.constant(),
        }
    }
}
