use crate::answer;
use std::alloc::Global;
use std::process::Abort;
use std::test::Fail;

// The text that a run list is answered with, but for its first line, must be this one.
fn check_answer(rt: &impl Abort, heap: Global, list: &str, lines: &str) -> Result<(), Fail> {
    let text = match answer(heap, list.as_bytes()) {
        Ok(text) => text,
        Err(refused) => refused.to_string(heap)?,
    };
    let wanted = format!(in heap; "line,answer,distance,row,column\n{lines}")?;
    assert_eq!(rt; text.as_str(), wanted.as_str());
    Ok(())
}

// A list for a sheet of two by one, by the metric of a name.
fn check_calls(
    rt: &impl Abort,
    heap: Global,
    metric: &str,
    calls: &str,
    lines: &str,
) -> Result<(), Fail> {
    let list = format!(in heap;
        "width,height,metric\n2,1,{metric}\ncall,row,column,order\n{calls}"
    )?;
    check_answer(rt, heap, list.as_str(), lines)
}

// Each call in the state that it does not want, and the two that are absent without air.
#[test]
fn wrong_states(rt: HostRuntime) -> Result<(), Fail> {
    check_calls(
        &rt,
        rt.alloc(),
        "city",
        "r,0,0,-\np,0,0,-\no,0,0,-\nt,0,0,p\nr,0,1,-\np,0,0,-\ns,0,0,-\nu,0,0,-\nt,0,0,p\nr,1,0,-\n",
        "4,3,0,0,0\n5,3,0,0,0\n6,3,0,0,0\n7,0,1,0,0\n8,0,-,-,-\n9,0,-,-,-\n10,3,0,0,0\n11,3,0,0,0\n12,3,0,0,0\n13,4,0,0,0\n",
    )
}

// Every order by every metric: an order that does not admit the metric is refused, and the bench is still open.
#[test]
fn orders_by_metrics(rt: HostRuntime) -> Result<(), Fail> {
    let calls = "s,0,0,-\nt,0,0,p\no,0,0,-\nt,0,0,d\no,0,0,-\nt,0,0,r\no,0,0,-\nt,0,0,f\n";
    check_calls(
        &rt,
        rt.alloc(),
        "city",
        calls,
        "4,0,0,0,0\n5,0,2,0,0\n6,0,0,0,0\n7,0,5,0,0\n8,0,0,0,0\n9,0,2,0,0\n10,0,0,0,0\n11,0,2,0,0\n",
    )?;
    for metric in ["chess", "chamfer"] {
        check_calls(
            &rt,
            rt.alloc(),
            metric,
            calls,
            "4,0,0,0,0\n5,0,2,0,0\n6,0,0,0,0\n7,5,0,0,0\n8,3,0,0,0\n9,0,2,0,0\n10,0,0,0,0\n11,0,2,0,0\n",
        )?;
    }
    check_calls(
        &rt,
        rt.alloc(),
        "euclid",
        calls,
        "4,0,0,0,0\n5,0,2,0,0\n6,0,0,0,0\n7,0,5,0,0\n8,0,0,0,0\n9,5,0,0,0\n10,3,0,0,0\n11,5,0,0,0\n",
    )
}

// A refused text, and a list without calls.
#[test]
fn faults(rt: HostRuntime) -> Result<(), Fail> {
    check_answer(&rt, rt.alloc(), "", "1,7,0,0,0\n")?;
    check_answer(
        &rt,
        rt.alloc(),
        "width,height,metric\n2,1,city\nrow\n",
        "3,7,0,0,0\n",
    )?;
    check_calls(
        &rt,
        rt.alloc(),
        "city",
        "r,0,0,-\nr,0,0\nx\n",
        "5,8,0,0,0\n",
    )?;
    check_calls(&rt, rt.alloc(), "city", "", "")
}
