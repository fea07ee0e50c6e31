use crate::{answers_line, seed_line, workload};

#[test]
fn the_first_numbers_of_seed_one(rt: HostRuntime) {
    let text = workload(rt.alloc(), 1, 3).expect(&rt, "a text");
    assert!(rt; text.starts_with(b"data([838,758,113]).\ntotal([],0).\n"));
}

#[test]
fn the_summary_of_one_answer(rt: HostRuntime) {
    let alloc = rt.alloc();
    let answer = b"D = [838], N = 838, S = 1024\n"
        .to_vec(alloc)
        .expect(&rt, "an answer");
    let mut answers = Vec::new(alloc);
    answers.push(answer).expect(&rt, "answers");
    let first = seed_line(alloc, 4_294_967_295, 1).expect(&rt, "a line");
    let second = answers_line(alloc, &answers).expect(&rt, "a line");
    assert!(rt; first.as_slice() == b"seed 4294967295 size 1\n".as_slice());
    assert!(rt; second.as_slice() == b"answers 1 bytes 29 sum 1475\n".as_slice());
}
