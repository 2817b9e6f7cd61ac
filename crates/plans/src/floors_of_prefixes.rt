// Which floor each source gives the prefix 0, 1, and which messages a mini-bucket source makes.
use crate::three::{NUMBERS, ORDER, SMALL, drafted, pair, pairs};
use buckets::mini_bucket::MiniBucket;
use costs::Cost;
use floors::first_choice::FirstChoice;
use floors::paid::Paid;
use floors::source::FloorSource;
use problems::shape::Shape;
use std::test::Fail;
use variables::prefix::Prefix;

// The source's floor of the prefix 0, 1, once its cells are filled; neutral where they do not fit.
fn floor<C: Cost, S: FloorSource<C>>(source: &mut S, shape: &Shape, area: &mut [C]) -> C {
    let at = shape.used();
    if !source.suits(shape) || at > area.len() {
        return C::neutral();
    }
    if source.room(shape) > area.len() - at {
        return C::neutral();
    }
    source.fill(shape, area, at);
    let order = shape.order();
    let mut prefix = Prefix::empty();
    prefix.push(&order, 0);
    prefix.push(&order, 1);
    source.floor(shape, &prefix, area, at)
}

// The shape of the job, arranged along its order.
fn arranged<C: Cost>(tables: [[C; 4]; 3], area: &mut [C]) -> Result<Shape, Fail> {
    let job = drafted(Paid::new(), tables, area)?;
    let mut shape = job.shape();
    shape.arrange(&ORDER)?;
    Ok(shape)
}

// The floors by Paid, First choice and the widths 2 and 3.
fn all<C: Cost>(tables: [[C; 4]; 3], area: &mut [C]) -> Result<[C; 4], Fail> {
    let shape = arranged(tables, area)?;
    Ok([
        floor(&mut Paid::new(), &shape, area),
        floor(&mut FirstChoice::new(), &shape, area),
        floor(&mut MiniBucket::new(2), &shape, area),
        floor(&mut MiniBucket::new(3), &shape, area),
    ])
}

#[test]
fn floors_of_a_prefix(rt: HostRuntime) -> Result<(), Fail> {
    let mut area = [0; 21];
    assert_eq!(rt; all(NUMBERS, &mut area)?, [4, 5, 5, 5]);
    let mut small = [0; 21];
    assert_eq!(rt; all(SMALL, &mut small)?, [4, 4, 4, 4]);
    let mut ranked = [pair(0); 21];
    assert_eq!(rt;
        all(pairs(), &mut ranked)?,
        [pair(4), pair(5), pair(5), pair(5)]
    );
    Ok(())
}

// Has the source of a width fill its cells behind the tables.
fn fill<C: Cost>(width: u8, tables: [[C; 4]; 3], area: &mut [C]) -> Result<(), Fail> {
    let shape = arranged(tables, area)?;
    floor(&mut MiniBucket::new(width), &shape, area);
    Ok(())
}

#[test]
fn messages_of_sums(rt: HostRuntime) -> Result<(), Fail> {
    let mut area = [0; 21];
    fill(2, NUMBERS, &mut area)?;
    assert_eq!(rt;
        area,
        [
            0, 0, 2, 4, 0, 5, 0, 4, 5, 1, 3, 0, 6, 2, 0, 1, 0, 2, 2, 0, 2,
        ]
    );
    fill(3, NUMBERS, &mut area)?;
    assert_eq!(rt;
        area,
        [
            0, 0, 2, 4, 0, 5, 0, 4, 5, 1, 3, 0, 6, 2, 3, 1, 6, 3, 5, 6, 5,
        ]
    );
    Ok(())
}

#[test]
fn messages_of_worst_costs(rt: HostRuntime) -> Result<(), Fail> {
    let mut area = [0; 21];
    fill(2, SMALL, &mut area)?;
    assert_eq!(rt;
        area,
        [
            0, 0, 2, 4, 0, 5, 0, 4, 5, 1, 3, 0, 6, 2, 0, 1, 0, 2, 2, 0, 2,
        ]
    );
    fill(3, SMALL, &mut area)?;
    assert_eq!(rt;
        area,
        [
            0, 0, 2, 4, 0, 5, 0, 4, 5, 1, 3, 0, 6, 2, 3, 1, 4, 2, 3, 4, 3,
        ]
    );
    Ok(())
}

#[test]
fn messages_of_ranked_costs(rt: HostRuntime) -> Result<(), Fail> {
    let mut area = [pair(0); 21];
    fill(3, pairs(), &mut area)?;
    assert_eq!(rt; area[18], pair(5));
    assert_eq!(rt; area[19], pair(6));
    assert_eq!(rt; area[20], pair(5));
    Ok(())
}
