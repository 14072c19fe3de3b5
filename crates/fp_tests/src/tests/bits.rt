//! Rows of bits.
use super::table::check;
use fp_bits::{Row, count, join, law_join, law_join_rows, within};
use std::alloc::{AllocError, Global};
use std::test::Fail;

/// Two rows of one length, and then their join, whether it is another row than the second, and how many bits it has.
const JOINS: &str = "\
    /;[] false 0\n\
    3/5;[7] true 3\n\
    3/7;[7] false 3\n\
    0,0,2/0,18446744073709551615,1;[0, 18446744073709551615, 3] true 66\n\
    0,5,1/1,18446744073709551615,1;[1, 18446744073709551615, 1] false 66\n\
    ";

fn row_of(alloc: Global, text: &str) -> Result<Row, Fail> {
    let mut words = Vec::new(alloc);
    for word in text.split(',') {
        if !word.is_empty() {
            words.push(word.parse::<u64>()?)?;
        }
    }
    if words.len() > 9 {
        return Err("too many words".into());
    }
    Ok(Row::from_vec(words))
}

fn join_text(alloc: Global, other: Row, mut into: Row) -> Result<String, AllocError> {
    if other.words().len() != into.words().len() || into.words().len() > 9 {
        return String::from_str(alloc, "not of one length");
    }
    let was_within = within(&other, &into);
    let changed = join(&mut into, &other);
    if was_within == changed {
        return String::from_str(alloc, "within");
    }
    let bits = count(&into);
    format!(in alloc; "{:?} {changed} {bits}", into.words())
}

fn told(alloc: Global, input: &str) -> Result<String, Fail> {
    let (other, into) = input.split_once('/').ok_or("one row")?;
    let other = row_of(alloc, other)?;
    let into = row_of(alloc, into)?;
    Ok(join_text(alloc, other, into)?)
}

#[test]
fn a_join_is_the_union_and_tells_a_change(rt: HostRuntime) -> Result<(), Fail> {
    check(&rt, rt.alloc(), JOINS, told)
}

#[test]
fn a_new_row_is_zero(rt: HostRuntime) -> Result<(), Fail> {
    let row = Row::zero(rt.alloc(), 3)?;
    assert_eq!(rt; row.words(), [0, 0, 0].as_slice());
    law_join();
    law_join_rows();
    Ok(())
}
