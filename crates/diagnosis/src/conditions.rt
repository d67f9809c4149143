//! What is wrong with a condition: a name, its shape, its types or its width.

use crate::contexts::{Context, Viewpoint};
use crate::names::diagnose_unknown;
use crate::parts::{Part, parts_of_condition};
use crate::rules::{Rule, push_form, wrong};
use crate::shapes::{Outside, in_assertion, in_statement};
use crate::types::{Mismatch, in_condition as mismatch_in_condition};
use crate::widths::{BoundedPart, Wide, first_wide, push_bounds};
use assertcheck::DataType;
use faults::{At, Diagnosis, number_of, separator};
use form_check::Scope;
use std::alloc::{AllocError, Global};
use syntax::Condition;
use value::{Refusal, Text};

/// A condition in a text.
#[derive(Clone, Copy)]
pub struct Site<'a> {
    pub condition: &'a Condition,
    /// Where its leaves begin.
    pub at: usize,
    /// The table of a statement; none around an assertion.
    pub scopes: &'a [Scope<'a>],
}

/// Says what is wrong with a condition, if that is found in it.
pub fn diagnose_condition<'a>(
    alloc: Global,
    context: Context<'a>,
    site: Site<'a>,
    diagnosis: &mut Diagnosis,
) -> Result<bool, AllocError> {
    match context.refusal {
        Refusal::UnknownName { name } => diagnose_names(alloc, context, site, name, diagnosis),
        Refusal::OutsideClass => diagnose_class(alloc, context, site, diagnosis),
        Refusal::TypeMismatch => diagnose_mismatch(alloc, context, site, diagnosis),
        Refusal::TooWide => diagnose_bounds(alloc, context, site, diagnosis),
        _ => Ok(false),
    }
}

/// Says what is wrong with an expression of a statement but for its types, if that is found in its parts. `outside` is
/// the first of them that is outside the class.
pub fn diagnose_expression<'a>(
    alloc: Global,
    here: Viewpoint<'a>,
    parts: &[Part<'a>],
    outside: Option<Outside>,
    diagnosis: &mut Diagnosis,
) -> Result<bool, AllocError> {
    match here.context.refusal {
        Refusal::UnknownName { name } => diagnose_unknown(alloc, here, name, parts, diagnosis),
        Refusal::OutsideClass => diagnose_shape(here.context, outside, diagnosis),
        Refusal::TooWide => diagnose_width(alloc, here.context, parts, diagnosis),
        _ => Ok(false),
    }
}

fn diagnose_names<'a>(
    alloc: Global,
    context: Context<'a>,
    site: Site<'a>,
    name: &Text,
    diagnosis: &mut Diagnosis,
) -> Result<bool, AllocError> {
    let parts = parts_of_condition(alloc, site.condition, site.at)?;
    let here = Viewpoint {
        context,
        scopes: site.scopes,
    };
    diagnose_unknown(alloc, here, name, &parts, diagnosis)
}

fn diagnose_class<'a>(
    alloc: Global,
    context: Context<'a>,
    site: Site<'a>,
    diagnosis: &mut Diagnosis,
) -> Result<bool, AllocError> {
    let outside = if site.scopes.is_empty() {
        in_assertion(alloc, context.catalog, site.condition, site.at)?
    } else {
        in_statement(&parts_of_condition(alloc, site.condition, site.at)?)
    };
    diagnose_shape(context, outside, diagnosis)
}

fn diagnose_mismatch<'a>(
    alloc: Global,
    context: Context<'a>,
    site: Site<'a>,
    diagnosis: &mut Diagnosis,
) -> Result<bool, AllocError> {
    let Site {
        condition,
        at,
        scopes,
    } = site;
    match mismatch_in_condition(alloc, context.catalog, scopes, condition, at)? {
        Some(mismatch) => diagnose_types(context, mismatch, diagnosis),
        None => Ok(false),
    }
}

fn diagnose_bounds<'a>(
    alloc: Global,
    context: Context<'a>,
    site: Site<'a>,
    diagnosis: &mut Diagnosis,
) -> Result<bool, AllocError> {
    let parts = parts_of_condition(alloc, site.condition, site.at)?;
    diagnose_width(alloc, context, &parts, diagnosis)
}

/// Says what is wrong with a part that is outside the class, if there is one.
pub fn diagnose_shape(
    context: Context,
    outside: Option<Outside>,
    diagnosis: &mut Diagnosis,
) -> Result<bool, AllocError> {
    let Some(outside) = outside else {
        return Ok(false);
    };
    diagnosis.place(20, context.range(outside.range));
    diagnosis.say(wrong(outside.rule))?;
    push_form(outside.rule, outside.root, &mut diagnosis.advice)?;
    Ok(true)
}

/// Says that what stands at a place breaks a rule of the class. That is always found.
pub fn diagnose_rule(at: At, rule: Rule, diagnosis: &mut Diagnosis) -> Result<bool, AllocError> {
    diagnosis.place(20, at);
    diagnosis.say(wrong(rule))?;
    push_form(rule, None, &mut diagnosis.advice)?;
    Ok(true)
}

/// The name of a type.
pub fn type_name(data_type: DataType) -> &'static str {
    match data_type {
        DataType::Number => "INTEGER",
        DataType::Text => "VARCHAR",
    }
}

/// Says which types do not fit. That is always found.
pub fn diagnose_types(
    context: Context,
    mismatch: Mismatch,
    diagnosis: &mut Diagnosis,
) -> Result<bool, AllocError> {
    diagnosis.place(5, context.range(mismatch.range()));
    diagnosis.say(mismatched(mismatch))?;
    push_types(context, mismatch, &mut diagnosis.advice)?;
    Ok(true)
}

/// What is wrong with types that do not fit.
fn mismatched(mismatch: Mismatch) -> &'static str {
    match mismatch {
        Mismatch::Compared { .. } => "INTEGER and VARCHAR are not compared",
        Mismatch::Computed(_) => "there is no arithmetic with VARCHAR",
        Mismatch::SumOfTexts(_) => "there is no SUM of VARCHAR",
    }
}

/// Which types there are, and which there may be.
fn push_types(context: Context, mismatch: Mismatch, advice: &mut String) -> Result<(), AllocError> {
    match mismatch {
        Mismatch::Compared {
            left,
            right,
            left_type,
            right_type,
        } => {
            let (one, other) = (type_name(left_type), type_name(right_type));
            context.push_spelled(left, advice)?;
            write!(advice, " is of type {one}, and ")?;
            context.push_spelled(right, advice)?;
            writeln!(
                advice,
                " of type {other}. A text stands in quotes, a number without."
            )
        }
        Mismatch::Computed(range) => {
            context.push_spelled(range, advice)?;
            advice.push_str(" is of type VARCHAR, and + - * take INTEGER.\n")
        }
        Mismatch::SumOfTexts(_) => advice.push_str(
            "SUM takes a column of type INTEGER. COUNT, MIN and MAX take any.\n",
        ),
    }
}

/// Says which of some parts is an expression without a bound, if one is.
fn diagnose_width(
    alloc: Global,
    context: Context,
    parts: &[Part],
    diagnosis: &mut Diagnosis,
) -> Result<bool, AllocError> {
    let Some(wide) = first_wide(alloc, parts)? else {
        return Ok(false);
    };
    diagnosis.place(18, context.range(wide.range));
    diagnosis.say("this can be a greater number than is computed with")?;
    push_wide(alloc, context, wide, &mut diagnosis.advice)?;
    diagnosis.advise(SMALLER)?;
    Ok(true)
}

/// At most so many parts of an expression are told with their bounds.
const MOST_PARTS: usize = 6;

/// What has which bound.
const SMALLER: &str = "Do without the product, or take factors of a smaller bound: a column, \
     MIN and MAX reach 2^50, COUNT 2^64 and SUM 2^114.";

/// The bounds of the parts of an expression that has none.
fn push_wide(
    alloc: Global,
    context: Context,
    wide: Wide,
    advice: &mut String,
) -> Result<(), AllocError> {
    let mut bounded = Vec::new(alloc);
    push_bounds(alloc, wide, &mut bounded)?;
    let mut left = bounded.len().min(MOST_PARTS);
    for part in bounded.iter().take(MOST_PARTS) {
        left = left.saturating_sub(1);
        push_bounded(context, *part, advice)?;
        advice.push_str(separator(left, " and "))?;
    }
    let whole = if wide.is_product { "product" } else { "sum" };
    writeln!(advice, "; their {whole} passes the limit of 2^126.")
}

/// What a part of an expression is, and its bound: a great power of two by its exponent.
fn push_bounded(
    context: Context,
    part: BoundedPart,
    advice: &mut String,
) -> Result<(), AllocError> {
    context.push_spelled(part.range, advice)?;
    let bound = part.bound;
    if bound.is_power_of_two() && bound > 1024 {
        let power = bound.trailing_zeros();
        write!(advice, " can reach 2^{power}")
    } else {
        write!(advice, " can reach {bound}")
    }
}

/// What is said of a refusal where nothing more is known.
pub fn diagnose_whole(context: Context, diagnosis: &mut Diagnosis) -> Result<(), AllocError> {
    let refusal = context.refusal;
    diagnosis.place(number_of(refusal), At::Definition(context.piece.whole()));
    write!(diagnosis.what, "{refusal}")
}
