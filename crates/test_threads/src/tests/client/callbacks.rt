//! Boxed callbacks.
use super::outcomes::found;
use crate::tests::*;
use rdm_client::{AskCallback, AskTold, BoxedAsk, Callback, Collected, Tells, TellsAsk, Told};
use rdm_join::ReplyHead;
use rdm_log::Completion;
use rdm_wire::{AckType, RespClass};
use std::sync::Arc;
use std::sync::atomic::{AtomicU64, Ordering};

// The completion of a request that was answered with two bytes.
fn answered(alloc: Global) -> Result<Completion, Fail> {
    Ok(Completion {
        status: Completed,
        reply: Some(ReplyHead {
            ack: AckType::Ack,
            class: RespClass::Get,
            pid: 0x0060,
            sub_device: 7,
        }),
        bytes: Vec::from_slice(alloc, &[0x01, 0x00])?,
    })
}

// What a request's callback returned.
fn of_request(one: Told) -> ActResult {
    told(&Some(Collected::Request(one)))
}

// What a discovery's callback returned.
fn of_ask(one: AskTold) -> ActResult {
    told(&Some(Collected::Ask(one)))
}

// A closure may compute with its arguments: numbers and bytes are in the ranges of their types.
#[test]
fn calls_the_box_with_the_answer(rt: HostRuntime) -> Result<(), Fail> {
    let calls = Arc::new(rt.alloc(), AtomicU64::new(0))?;
    let counter = Arc::try_clone(&calls)?;
    let closure = Box::new(rt.alloc(), move |done: Completion| {
        if let (Some(head), Some(byte)) = (done.reply, done.bytes.first()) {
            counter.fetch_add(u64::from(head.pid) + u64::from(*byte) + 1, Ordering::SeqCst);
        }
        Told { tag: 7, done }
    })?;
    let done = answered(rt.alloc())?;
    let told = Callback::new(7, closure).spend(done);
    assert_eq!(rt; of_request(told), Answered(7, 1, 0));
    assert_eq!(rt; calls.load(Ordering::SeqCst), 0x0062);
    Ok(())
}

#[test]
fn tells_a_cancelled_callback_that_its_request_was_not_sent(rt: HostRuntime) -> Result<(), Fail> {
    let calls = Arc::new(rt.alloc(), AtomicU64::new(0))?;
    let counter = Arc::try_clone(&calls)?;
    let closure = Box::new(rt.alloc(), move |done: Completion| {
        counter.fetch_add(1, Ordering::SeqCst);
        Told { tag: 8, done }
    })?;
    let told = Callback::new(8, closure).cancel(rt.alloc());
    assert_eq!(rt; of_request(told), Request(8, FailedToSend));
    assert_eq!(rt; calls.load(Ordering::SeqCst), 1);
    Ok(())
}

#[test]
fn calls_the_box_with_the_devices(rt: HostRuntime) -> Result<(), Fail> {
    let calls = Arc::new(rt.alloc(), AtomicU64::new(0))?;
    let counter = Arc::try_clone(&calls)?;
    let closure = Box::new(rt.alloc(), move |done: BoxedAsk| {
        if let Some(device) = done.devices().first() {
            counter.fetch_add(
                u64::from(device.control) + done.run() / 2 + 1,
                Ordering::SeqCst,
            );
        }
        AskTold { tag: 9, done }
    })?;
    let done = found(rt.alloc(), 4)?;
    let told = AskCallback::new(9, closure).spend(done);
    assert_eq!(rt; of_ask(told), Discovery(9, 4, Faultless, First));
    assert_eq!(rt; calls.load(Ordering::SeqCst), 5);
    Ok(())
}

#[test]
fn tells_a_cancelled_callback_that_no_run_was_begun(rt: HostRuntime) -> Result<(), Fail> {
    let calls = Arc::new(rt.alloc(), AtomicU64::new(0))?;
    let counter = Arc::try_clone(&calls)?;
    let closure = Box::new(rt.alloc(), move |done: BoxedAsk| {
        counter.fetch_add(1, Ordering::SeqCst);
        AskTold { tag: 10, done }
    })?;
    let told = AskCallback::new(10, closure).cancel();
    assert_eq!(rt; of_ask(told), Discovery(10, 0, Aborted, Nobody));
    assert_eq!(rt; calls.load(Ordering::SeqCst), 1);
    Ok(())
}
