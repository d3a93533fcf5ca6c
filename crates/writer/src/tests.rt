use crate::answer::{Answer, Figures};
use crate::answer_text;
use sheet::refusal::Refusal;
use std::test::Fail;

fn given(line: usize, distance: u64, row: usize, column: usize) -> Answer {
    let figures = Figures {
        distance,
        row,
        column,
    };
    Answer {
        line,
        outcome: Ok(Some(figures)),
    }
}

fn refused(line: usize, refusal: Refusal) -> Answer {
    Answer {
        line,
        outcome: Err(refusal),
    }
}

#[test]
fn answers(rt: HostRuntime) -> Result<(), Fail> {
    let answers = [
        given(8, 10, 1, 3),
        given(9, 0, 0, 0),
        refused(11, Refusal::NotAdmitted),
        Answer {
            line: 12,
            outcome: Ok(None),
        },
        given(13, u64::MAX, 1023, 0),
    ];
    let text = answer_text(rt.alloc(), &answers)?;
    assert_eq!(rt;
        text.as_str(),
        "line,answer,distance,row,column\n8,0,10,1,3\n9,0,0,0,0\n11,5,0,0,0\n12,0,-,-,-\n13,0,18446744073709551615,1023,0\n"
    );
    Ok(())
}

#[test]
fn refused_texts(rt: HostRuntime) -> Result<(), Fail> {
    let none = answer_text(rt.alloc(), &[])?;
    assert_eq!(rt; none.as_str(), "line,answer,distance,row,column\n");
    let long = answer_text(rt.alloc(), &[refused(0, Refusal::LongText)])?;
    assert_eq!(rt;
        long.as_str(),
        "line,answer,distance,row,column\n0,9,0,0,0\n"
    );
    Ok(())
}
