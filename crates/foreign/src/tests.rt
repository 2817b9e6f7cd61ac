// What the sources answer through the trait.
use crate::greater::Greater;
use crate::neutral::Neutral;
use costs::Cost;
use floors::first_choice::FirstChoice;
use floors::source::FloorSource;
use problems::shape::Shape;
use std::test::Fail;
use variables::prefix::Prefix;

// The floor of the empty prefix.
fn bottom<C: Cost, S: FloorSource<C>>(source: &S, shape: &Shape, area: &[C]) -> C {
    source.floor(shape, &Prefix::empty(), area, shape.used())
}

#[test]
fn neutral_is_neutral(rt: HostRuntime) {
    let area = [7u32; 4];
    assert_eq!(rt; bottom(&Neutral {}, &Shape::none(), &area), 0);
}

// One variable of two values, with a function that costs 5 or 3 in the cells from 2 on: First choice says 3, and Neutral no more.
#[test]
fn greater_is_the_greater(rt: HostRuntime) -> Result<(), Fail> {
    let mut area = [0, 0, 5, 3u32];
    let mut shape = Shape::of(&[2])?;
    shape.enter(&[0], area.len())?;
    shape.arrange(&[0])?;
    let mut source = Greater {
        first: Neutral {},
        second: FirstChoice::new(),
    };
    let used = shape.used();
    if used <= area.len() {
        source.fill(&shape, &mut area, used);
    }
    assert_eq!(rt; bottom(&source, &shape, &area), 3);
    Ok(())
}
