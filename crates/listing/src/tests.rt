// The listing of a small table, as it is printed.
use crate::error::Error;
use crate::listing;
use modular::letter::Letter;
use modular::matrix::Matrix;
use std::alloc::Global;
use std::test::Fail;
use table::finished::Finished;
use table::link::Link;
use table::refusal::Refusal;

// The lines of level 2.
const LINKS: [Link; 3] = [
    Link {
        t: 0,
        s: 1,
        parent: 0,
        letter: Letter::T,
    },
    Link {
        t: 2,
        s: 0,
        parent: 0,
        letter: Letter::S,
    },
    Link {
        t: 1,
        s: 2,
        parent: 1,
        letter: Letter::T,
    },
];

const LISTING: &str = "index=3\ncusps=2\ne2=1\ne3=0\ngenus12=0\n\
    row=0,0,1,-\nrow=1,2,0,S\nrow=2,1,2,ST\n\
    gen=1,1,0,1\ngen=-1,0,0,-1\ngen=1,0,-2,1\ngen=-1,-1,2,1\n\
    member=yes\nmember=no\n";

// What is listed of the table of these links.
fn listed<E: From<Refusal> + From<Error>>(heap: Global, matrices: &[Matrix]) -> Result<String, E> {
    let table = Finished::stored::<E>(&LINKS)?;
    Ok(listing(heap, &table, matrices)?)
}

#[test]
fn lines_of_level_2(rt: HostRuntime) -> Result<(), Fail> {
    let text = listed::<Error>(rt.alloc(), &[[[1, 0], [2, 1]], [[1, 0], [1, 1]]])?;
    assert_eq!(rt; text.as_str(), LISTING);
    Ok(())
}

#[test]
fn first_declined_matrix(rt: HostRuntime) {
    let matrices = [
        [[1, 0], [2, 1]],
        [[1, 0], [0, 2]],
        [[1_000_000_001, 0], [0, 1]],
    ];
    let refused = listed::<Error>(rt.alloc(), &matrices);
    assert!(rt; matches!(refused, Err(Error::Declined(Refusal::Determinant))));
}
