// A machine answers each call, and says that a bad line is one.
ghost use Rattle.heap_program.specs.Answering.{IsAnswering};
ghost use Rattle.heap_program.specs.AnsweringLaws.{answering_none, answering_on};

use crate::respond::Respond;
use crate::text::push_answer;
use kernel_heap::{Call, Machine};
use std::alloc::AllocError;

impl Respond for Machine {
    ghost responds = { IsAnswering };

    ghost responds_none = { answering_none };

    ghost responds_on = { answering_on };

    fn respond(&mut self, item: Option<Call>, output: &mut String) -> Result<(), AllocError> {
        match item {
            Some(call) => {
                let answer = self.step(&call)?;
                push_answer(output, &answer)
            }
            None => output.push_str("bad line\n"),
        }
    }
}
