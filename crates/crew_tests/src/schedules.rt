// Faults that strike each of the first three attempts of a position, whatever the order in which tasks come back.

use crate::scripted::{NEWEST, ran_in_order};
use engine::Report;
use std::test::Fail;
use std::thread::Threads;

// The order in which the tasks that are out come back, each number modulo how many they are. After the last number the
// oldest comes first.
const OLDEST: &[i64] = &[];

// The first draws from 1 of the batch that the program makes, reckoned apart.
const DRAWN: &[i64] = &[
    908834774, 1093944153, 1392341196, 822192870, 1708211034, 1074839795, 1189567130, 140486902,
    1803298089, 426146746, 1601520123, 1150530802, 1682947452, 680858400, 523087034, 1610444812,
    911684890, 1228670495, 1337093332, 436429365, 1859467627, 2103721357, 1180584926, 1334893410,
    831492669, 1692817328, 1266356004, 117939872, 2071799121, 1906775968, 608200607, 1374987538,
    688839708, 1175113925, 1158372494, 533141082, 1718403786, 394474858, 37380316, 656418589,
    482739455, 1369587172, 2119158410, 770417080, 1249254861, 618054934, 399563508, 1201712901,
];

// Each of the three faults struck, and the total is 7.
fn adds_up(report: &Report) -> bool {
    report.records.as_slice() == [7].as_slice()
        && report.journal.restarts.len() == 3
        && report.unused == 0
}

// The first three attempts of a position are struck, so many subthreads later, and the tasks come back in this order.
fn keeps_total<R: Threads + Sync + AllocGlobal>(
    rt: &R,
    position: u32,
    delay: u32,
    order: &[i64],
) -> Result<bool, Fail> {
    let faults = format!(in rt.alloc();
        "{position},0,{delay},1\n{position},1,{delay},1\n{position},2,{delay},1\n"
    )?;
    let report = ran_in_order(rt, faults.as_str(), order)?;
    Ok(adds_up(&report))
}

// The tasks come back oldest first, newest first, and as drawn.
fn keeps_total_in_each_order<R: Threads + Sync + AllocGlobal>(
    rt: &R,
    position: u32,
    delay: u32,
) -> Result<bool, Fail> {
    Ok(
        keeps_total(rt, position, delay, OLDEST)?
            && keeps_total(rt, position, delay, &NEWEST)?
            && keeps_total(rt, position, delay, DRAWN)?,
    )
}

// Each of the first three attempts of each position is struck, this many subthreads later.
fn keeps_totals<R: Threads + Sync + AllocGlobal>(rt: &R, delay: u32) -> Result<bool, Fail> {
    for position in 0..11u32 {
        if !keeps_total_in_each_order(rt, position, delay)? {
            return Ok(false);
        }
    }
    Ok(true)
}

#[test]
fn schedules_keep_the_total(rt: HostRuntime) -> Result<(), Fail> {
    assert!(rt; keeps_totals(&rt, 0)? && keeps_totals(&rt, 1)? && keeps_totals(&rt, 64)?);
    Ok(())
}
