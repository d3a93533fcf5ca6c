use crate::calls::Calls;
use crate::check;
use crate::list::Entry;
use sheet::order::Order;
use sheet::size::Size;
use std::process::Abort;
use std::test::Fail;
use words::call::{Call, CallName, call_of, order_of};
use words::metric_name::MetricName;

// A run list with these values and these calls.
macro_rules! list {
    ($values:literal, $calls:literal) => {
        concat!("width,height,metric\n", $values, "\ncall,row,column,order\n", $calls)
    };
}

// The number of the refusal and the line for which a text is refused.
fn fault(text: &str) -> Option<(u32, usize)> {
    let fault = check(text.as_bytes()).err()?;
    Some((u32::from(fault.refusal), fault.line))
}

// All texts end so.
fn all_give(rt: &impl Abort, expected: Option<(u32, usize)>, texts: &[&str]) {
    for text in texts {
        assert_eq!(rt; fault(text), expected, "{}", *text);
    }
}

#[test]
fn worked_list(rt: HostRuntime) -> Result<(), Fail> {
    let text = list!(
        "4,2,euclid",
        "r,0,3,-\ns,0,0,-\nt,0,0,p\nr,1,3,-\np,0,0,-\no,0,0,-\ns,0,3,-\nt,0,0,r\nt,0,0,d\n"
    );
    let list = check(text.as_bytes())?;
    assert_eq!(rt; list.size, Size::new(4, 2)?);
    assert_eq!(rt; list.metric, MetricName::Euclid);
    let calls = [
        Call::Read { row: 0, column: 3 },
        Call::Strike { row: 0, column: 0 },
        Call::Settle(Order::Parallel),
        Call::Read { row: 1, column: 3 },
        Call::Peak,
        Call::Reopen,
        Call::Strike { row: 0, column: 3 },
        Call::Settle(Order::Raster),
        Call::Settle(Order::Directional),
    ];
    let mut checked = list.calls;
    let mut list = Calls::of(text.as_bytes());
    for (i, call) in calls.iter().enumerate() {
        let entry = Entry {
            line: i + 4,
            call: *call,
        };
        assert_eq!(rt; list.next(), Some(entry));
        assert_eq!(rt; checked.next(), Some(entry));
    }
    assert_eq!(rt; list.next(), None);
    assert_eq!(rt; checked.next(), None);
    Ok(())
}

#[test]
fn letters(rt: HostRuntime) {
    assert_eq!(rt; call_of('u'), Some(CallName::Restore));
    assert_eq!(rt; call_of('S'), None);
    assert_eq!(rt; order_of('f'), Some(Order::Free));
    assert_eq!(rt; order_of('-'), None);
}

#[test]
fn accepted(rt: HostRuntime) -> Result<(), Fail> {
    let texts = [
        list!("4,2,city", ""),
        list!("1,1,chamfer", ""),
        list!("0004,0002,chess", ""),
        list!("1024,1,city", ""),
        list!("1024,2,city", ""),
        list!("4,2,city", "s,9999,0000,-\n"),
    ];
    all_give(&rt, None, &texts);
    Ok(())
}

#[test]
fn faulty_head(rt: HostRuntime) -> Result<(), Fail> {
    let first = [
        "",
        "width,height,metric",
        "width,height,metric\r\n4,2,city\n",
        "names\nvalues\nnames\ncall",
    ];
    all_give(&rt, Some((7, 1)), &first);
    let second = [
        "width,height,metric\n",
        "width,height,metric\n4,2,city",
        list!("00004,2,city", ""),
        list!(",2,city", ""),
        list!("4,2,City", ""),
        list!("4,2,city,", ""),
        list!("4,2", ""),
    ];
    all_give(&rt, Some((8, 2)), &second);
    let third = [
        "width,height,metric\n4,2,city\n",
        "width,height,metric\n4,2,city\ncall,row,column,order",
        "width,height,metric\n4,2,city\ncall,row,column,orders\n",
    ];
    all_give(&rt, Some((7, 3)), &third);
    Ok(())
}

#[test]
fn faulty_calls(rt: HostRuntime) -> Result<(), Fail> {
    let texts = [
        list!("4,2,city", "\n"),
        list!("4,2,city", "o,0,0,-"),
        list!("4,2,city", "s,10000,0,-\n"),
        list!("4,2,city", "s,0,a,-\n"),
        list!("4,2,city", "s,0,0,p\n"),
        list!("4,2,city", "t,0,0,-\n"),
        list!("4,2,city", "t,0,1,p\n"),
        list!("4,2,city", "p,1,0,-\n"),
        list!("4,2,city", "o,0,0,-\r\n"),
        list!("4,2,city", "o,0,0,-,\n"),
        list!("4,2,city", "o;0,0,-\n"),
        list!("4,2,city", "x,0,0,-\n"),
        list!("1025,1,city", "t,0,0\np,0,0,-\n\n"),
    ];
    all_give(&rt, Some((8, 4)), &texts);
    Ok(())
}

#[test]
fn bad_sizes(rt: HostRuntime) -> Result<(), Fail> {
    let texts = [
        list!("0,2,city", ""),
        list!("1025,1,city", ""),
        list!("1,1025,city", ""),
        list!("683,3,city", "p,0,0,-\n"),
    ];
    all_give(&rt, Some((1, 2)), &texts);
    Ok(())
}

#[test]
fn longest(rt: HostRuntime) -> Result<(), Fail> {
    let mut text = String::from_str(rt.alloc(), list!("4,2,city", "s,0000,000,-\n"))?;
    for _ in 0..2040 {
        text.push_str("s,0,0,-\n")?;
    }
    assert_eq!(rt; text.len(), 16384);
    assert_eq!(rt; fault(text.as_str()), None);
    text.push('x')?;
    assert_eq!(rt; fault(text.as_str()), Some((9, 0)));
    Ok(())
}
