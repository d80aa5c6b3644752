use live_core::{Answer, Core, Event, NotLegal, run_events};
use std::test::Fail;

fn scan(sources: u64, pieces: u64) -> Event {
    Event::Scan { sources, pieces }
}

fn piece(worker: u32, index: u64) -> Event {
    Event::Piece { worker, index }
}

fn enter(connection: u32, request: u64) -> Event {
    Event::Enter {
        connection,
        request,
    }
}

fn served(edition: u64, sources: u64, request: u64) -> Answer {
    Answer::Served {
        edition,
        sources,
        request,
    }
}

#[test]
fn an_edition_is_published_when_its_piece_is_finished(rt: HostRuntime) -> Result<(), Fail> {
    let events = [
        enter(1, 5),
        scan(8, 1),
        Event::Publish,
        piece(0, 0),
        Event::Publish,
        enter(1, 6),
    ];
    let answers = [
        served(1, 7, 5),
        Answer::Done,
        Answer::Illegal(NotLegal::Unfinished),
        Answer::Done,
        Answer::Published(2),
        served(2, 8, 6),
    ];
    let found = run_events(rt.alloc(), 7, &events)?;
    assert!(rt; found.as_slice() == answers.as_slice());
    Ok(())
}

#[test]
fn each_illegal_event_has_its_cause_and_changes_nothing(rt: HostRuntime) -> Result<(), Fail> {
    let events = [
        piece(0, 0),
        Event::Publish,
        scan(8, 2),
        scan(9, 0),
        piece(0, 2),
        piece(3, 1),
        piece(0, 1),
        Event::Publish,
        enter(2, 1),
        piece(1, 0),
        Event::Publish,
        piece(1, 0),
        enter(2, 2),
    ];
    let answers = [
        Answer::Illegal(NotLegal::NoScan),
        Answer::Illegal(NotLegal::NoScan),
        Answer::Done,
        Answer::Illegal(NotLegal::ScanUnderWay),
        Answer::Illegal(NotLegal::UnknownPiece),
        Answer::Done,
        Answer::Illegal(NotLegal::PieceTwice),
        Answer::Illegal(NotLegal::Unfinished),
        served(1, 7, 1),
        Answer::Done,
        Answer::Published(2),
        Answer::Illegal(NotLegal::NoScan),
        served(2, 8, 2),
    ];
    let found = run_events(rt.alloc(), 7, &events)?;
    assert!(rt; found.as_slice() == answers.as_slice());
    Ok(())
}

#[test]
fn a_scan_knows_no_piece_of_the_one_before(rt: HostRuntime) -> Result<(), Fail> {
    let events = [
        scan(2, 1),
        piece(0, 0),
        Event::Publish,
        scan(3, 1),
        Event::Publish,
        piece(0, 0),
        Event::Publish,
        scan(4, 0),
        Event::Publish,
        enter(0, 1),
    ];
    let answers = [
        Answer::Done,
        Answer::Done,
        Answer::Published(2),
        Answer::Done,
        Answer::Illegal(NotLegal::Unfinished),
        Answer::Done,
        Answer::Published(3),
        Answer::Done,
        Answer::Published(4),
        served(4, 4, 1),
    ];
    let found = run_events(rt.alloc(), 1, &events)?;
    assert!(rt; found.as_slice() == answers.as_slice());
    Ok(())
}

#[test]
fn a_core_is_stepped_by_hand(rt: HostRuntime) -> Result<(), Fail> {
    let mut core = Core::start(rt.alloc(), 7)?;
    assert!(rt; core.step(&enter(1, 5))? == served(1, 7, 5));
    assert!(rt; core.step(&scan(8, 0))? == Answer::Done);
    assert!(rt; core.step(&Event::Publish)? == Answer::Published(2));
    Ok(())
}
