// The eight-word stack: push and pop, by value and where it is lent.
#![tactic(auto)]

// The eight-word stack, its top first.
#[derive(Clone, Copy, Debug, PartialEq, Eq)]
pub struct Stack {
    pub words: [u16; 8],
}

impl Stack {
    ghost use Rattle.std.specs.Prelude.{◌≡◌};
    ghost use Rattle.hardware_stack.specs.Stack.{push_of, pop_of, top_of};

    // The stack with a word pushed.
    pub fn pushed(self, word: u16) -> Stack
        ensures { result ≡ push_of self word }
    {
        let w = self.words;
        let down = [word, w[0], w[1], w[2], w[3], w[4], w[5], w[6]];
        Stack { words: down }
    }

    // The stack with a word popped.
    pub fn popped(self) -> Stack
        ensures { result ≡ pop_of self }
    {
        let w = self.words;
        let up = [w[1], w[2], w[3], w[4], w[5], w[6], w[7], w[7]];
        Stack { words: up }
    }

    // The word that a pop gives.
    #[tactic(auto, unfolding(crate::specs::Stack::top_of))]
    pub fn top(self) -> u16
        ensures { result ≡ top_of self }
    {
        self.words[0]
    }

    // A push on a stack that is lent, beside `pushed`: document 01 has it in the place where the machine holds the stack.
    pub fn push(&mut self, word: u16)
        ensures { self.new ≡ push_of self.old word }
    {
        *self = self.pushed(word);
    }

    // A pop from a stack that is lent, and the word; beside `popped`, as `push`.
    pub fn pop(&mut self) -> u16
        ensures { (result ≡ top_of self.old) × (self.new ≡ pop_of self.old) }
    {
        let word = self.top();
        *self = self.popped();
        word
    }
}
