// Each topic's lines through the lowering.
use crate::worked::all_lower;
use crate::{alone, brackets, products, scalars, terms, wide};
use std::test::Fail;

#[test]
fn scalar_lines(rt: HostRuntime) -> Result<(), Fail> {
    all_lower(&rt, &scalars::LINES)
}

#[test]
fn lines_of_one_access(rt: HostRuntime) -> Result<(), Fail> {
    all_lower(&rt, &alone::LINES)
}

#[test]
fn lines_of_products(rt: HostRuntime) -> Result<(), Fail> {
    all_lower(&rt, &products::LINES)
}

#[test]
fn lines_with_brackets(rt: HostRuntime) -> Result<(), Fail> {
    all_lower(&rt, &brackets::LINES)
}

#[test]
fn lines_of_several_terms(rt: HostRuntime) -> Result<(), Fail> {
    all_lower(&rt, &terms::LINES)
}

#[test]
fn wide_lines(rt: HostRuntime) -> Result<(), Fail> {
    all_lower(&rt, &wide::LINES)
}
