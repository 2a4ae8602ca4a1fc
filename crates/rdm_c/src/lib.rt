//! The calls that C makes. `bindings/c/wurstlinen.h` declares each.
//!
//! Each call has the clauses of the library's call with that name that fix the result, the state and the status, for
//! what its handle holds. An argument needs only its type: each range is tested, and has a status. All of it is
//! the profile of this project.
//!
//! A call takes out what its handle holds, and puts it back, since the prover can't read a value through a raw pointer.
#![tactic(auto)]

ghost use Rattle.std.specs.Prelude.{◌≡◌};

use rdm_handles::status::NOT_OPEN;

/// Opens a handle with what is made for it, and returns the status. An open one is refused, and unchanged.
macro_rules! on_closed {
    ($handle:ident, $alloc:ident => $made:expr) => {
        if $handle.is_open() {
            ALREADY_OPEN
        } else {
            match $made {
                Err(fault) => fault,
                Ok(made) => match Box::new($alloc, made) {
                    Err(_) => OUT_OF_MEMORY,
                    Ok(boxed) => {
                        $handle.put(boxed);
                        DONE
                    }
                },
            }
        }
    };
}

/// Makes a call on what a handle holds, and returns its status. A handle that holds nothing of this type is refused,
/// and unchanged.
macro_rules! on_held {
    ($held:ident: $type:ident in $handle:ident, $alloc:ident => $call:expr) => {
        match $handle.take::<$type>($alloc) {
            None => crate::not_open(),
            Some(mut boxed) => {
                let $held = &mut *boxed;
                let status = $call;
                $handle.put(boxed);
                status
            }
        }
    };
}

/// A call that is always done.
macro_rules! done {
    ($made:expr) => {{
        $made;
        DONE
    }};
}

/// Done, or this status if the call was refused.
macro_rules! done_or {
    ($refused:ident, $made:expr) => {
        match $made {
            Ok(_) => DONE,
            Err(_) => $refused,
        }
    };
}

/// A client's join of a queue, and its status. Writes the client's number.
macro_rules! call_join {
    ($queue:ident, $alloc:ident, $places:ident, $client:ident) => {
        match $queue.join_client($alloc, $places) {
            Ok(joined) => {
                *$client = joined.0;
                DONE
            }
            Err(fault) => status_of_join(fault),
        }
    };
}

/// A client's request, and its status. Writes the request's number.
macro_rules! call_submit {
    ($queue:ident, $client:ident, $request:ident, $param_bytes:ident, $number:ident) => {
        match request_of($request, $param_bytes) {
            Ok(request) => match $queue.submit(ClientId($client), request) {
                Ok(given) => {
                    *$number = given;
                    DONE
                }
                Err((fault, _)) => status_of_work(fault),
            },
            Err(fault) => fault,
        }
    };
}

/// A client's discovery, and its status. Writes the discovery's number.
macro_rules! call_discover {
    ($queue:ident, $client:ident, $kind:ident, $number:ident) => {
        if $kind > 1 {
            BAD_KIND
        } else {
            match $queue.discover(ClientId($client), kind_of($kind)) {
                Ok(given) => {
                    *$number = given;
                    DONE
                }
                Err(fault) => status_of_work(fault),
            }
        }
    };
}

/// The line's reply to a queue, and its status.
macro_rules! call_deliver {
    ($queue:ident, $alloc:ident, $reply:ident) => {
        if $reply.len() > MOST_FRAME_BYTES {
            REPLY_TOO_LONG
        } else {
            let mut bytes = LineReply::new();
            bytes.try_extend_from_slice($reply).unwrap();
            done_or!(NOT_ASKED, $queue.deliver($alloc, LineEvent::Reply(bytes)))
        }
    };
}

/// A look at a client's oldest outcome, and its status. Writes the outcome's kind.
macro_rules! call_oldest {
    ($queue:ident, $client:ident, $kind:ident) => {
        if usize::from($client) >= $queue.client_count() {
            UNKNOWN_CLIENT
        } else {
            match $queue.oldest(ClientId($client)) {
                None => NOTHING,
                Some(Oldest::Request { .. }) => {
                    *$kind = 0;
                    DONE
                }
                Some(Oldest::Discovery { .. }) => {
                    *$kind = 1;
                    DONE
                }
            }
        }
    };
}

/// A collect of a request's outcome, and its status. The outcome is written first, and collected only if it fits.
macro_rules! call_next_completion {
    ($queue:ident, $client:ident, $completion:ident, $buffer:ident) => {
        if usize::from($client) >= $queue.client_count() {
            UNKNOWN_CLIENT
        } else {
            match $queue.oldest(ClientId($client)) {
                None => NOTHING,
                Some(Oldest::Discovery { .. }) => OTHER_OUTCOME,
                Some(Oldest::Request {
                    number,
                    done,
                    may_be_incomplete,
                }) => {
                    if done.bytes.len() > $buffer.len() {
                        $completion.len = done.bytes.len();
                        BUFFER_TOO_SMALL
                    } else {
                        *$completion = completion_for_c(number, done, may_be_incomplete);
                        put_bytes($buffer, &done.bytes);
                        let _ = $queue.next_completion(ClientId($client));
                        DONE
                    }
                }
            }
        }
    };
}

/// A collect of a discovery's outcome, and its status. The outcome is written first, too.
macro_rules! call_next_discovery {
    ($queue:ident, $client:ident, $end:ident, $devices:ident) => {
        if usize::from($client) >= $queue.client_count() {
            UNKNOWN_CLIENT
        } else {
            match $queue.oldest(ClientId($client)) {
                None => NOTHING,
                Some(Oldest::Request { .. }) => OTHER_OUTCOME,
                Some(Oldest::Discovery { end, set }) => {
                    if set.len() > $devices.len() {
                        $end.count = set.len();
                        BUFFER_TOO_SMALL
                    } else {
                        *$end = end_for_c(&end, set.len());
                        put_devices($devices, set.as_slice());
                        let _ = $queue.next_discovery(ClientId($client), &mut DeviceSet::new());
                        DONE
                    }
                }
            }
        }
    };
}

mod agents;
mod controllers;
mod logs;
mod packets;
mod sessions;

/// The version of the interface: major times 1,000,000, minor times 1,000 and patch. The file `VERSION` has the same.
#[unsafe(no_mangle)]
pub extern "C" fn wurst_version() -> u32
    ensures { result ≡ 1000 }
{
    1_000
}

/// The status of a call on a handle that holds nothing of its type.
#[cold]
fn not_open() -> u32
    ensures { result ≡ NOT_OPEN }
{
    NOT_OPEN
}
