//! The data of joined replies.
ghost use Rattle.rdm_join.specs.JoinerStanding.{IsOpen};

use crate::tests::*;
use arrayvec::ArrayVec;
use rdm_join::{Joiner, Judged, Step};
use rdm_wire::{AckType, RespClass, Response};

// A response to a GET of the parameter `0060`, with this many bytes `5a` of data.
fn response(rt: &impl Abort, ack: AckType, length: usize) -> Response {
    let all = [0x5a; 231];
    let mut param = ArrayVec::new();
    check(rt, length <= 231);
    check(rt, param.try_extend_from_slice(&all[..length]).is_ok());
    Response {
        source: get().target,
        dest: controller(),
        tn: 0,
        ack,
        count: 0,
        sub_device: 0,
        class: RespClass::Get,
        pid: 0x0060,
        param,
    }
}

// A joiner after this many parts of 231 bytes.
fn with_parts(rt: &impl Abort, parts: usize) -> Joiner
    ensures { IsOpen result }
{
    let mut joiner = Joiner::new();
    for _part in 0..parts {
        let step = joiner.add(Judged::Part(response(rt, AckType::Overflow, 231)));
        check(rt, step == Step::More);
    }
    joiner
}

// Takes the data of this many parts and of a last reply with this many bytes, again if an allocation fails.
fn takes_data(rt: &impl Abort, alloc: Global, parts: usize, last: usize, length: usize) {
    let mut joiner = with_parts(rt, parts);
    let step = joiner.add(Judged::Whole(response(rt, AckType::Ack, last)));
    check(rt, step == Step::Done(Status::Completed));
    let data = match joiner.take_data(alloc) {
        Ok(data) => data,
        Err(_) => {
            check(rt, joiner.head().is_some());
            joiner.take_data(alloc).expect(rt, "the data")
        }
    };
    check(rt, data.len() == length);
    for byte in &data {
        check(rt, *byte == 0x5a);
    }
}

#[test]
fn take_data_of_no_bytes(rt: HostRuntime) {
    takes_data(&rt, rt.alloc(), 0, 0, 0);
}

#[test]
fn take_data_of_one_byte(rt: HostRuntime) {
    takes_data(&rt, rt.alloc(), 0, 1, 1);
}

#[test]
fn take_data_of_a_middle_length(rt: HostRuntime) {
    takes_data(&rt, rt.alloc(), 17, 169, 4096);
}

#[test]
fn take_data_of_the_greatest_length(rt: HostRuntime) {
    takes_data(&rt, rt.alloc(), 283, 162, 65_535);
}
