ghost use Rattle.std.specs.Prelude.{◌≡◌, ◌+◌, ◌-◌, ◌<◌, ◌++◌, ◌∷◌, [], map, OnOk, OnErr};
ghost use Rattle.pec_outside.specs.DoorReplies.{HasRoom, replies_of};
ghost use Rattle.pec_outside.specs.Doors.{RepliesState};

use pec_types::Text8;
use std::alloc::{AllocError, Global};
use std::marker::Model;

/// What was written to connections, with room for what is written to those that are out.
pub(crate) struct Replies {
    texts: Vec<Text8>,
    // Beside each text, whether its connection had faults.
    raised: Vec<bool>,
    out: usize,
}

impl Model for Replies {
    ghost Value = { RepliesState };

    ghost view = { λ replies. record { all = replies_of replies.texts.items replies.raised.items; out = replies.out } };

    ghost invariant = { λ replies. HasRoom replies.texts replies.raised replies.out };
}

impl Drop for Replies {
    fn drop(self) {
        let Replies {
            texts: _,
            raised: _,
            out: _,
        } = self;
    }
}

impl Replies {
    pub(crate) fn new(alloc: Global) -> Replies
        ensures { result ≡ record { all = []; out = 0 } }
    {
        Replies {
            texts: Vec::new(alloc),
            raised: Vec::new(alloc),
            out: 0,
        }
    }

    /// The texts, in order.
    pub(crate) fn texts(&self) -> &[Text8]
        ensures { result.now ≡ map (λ reply. reply.text) self.now.all }
    {
        self.texts.as_slice()
    }

    /// For each text, whether its connection had faults.
    pub(crate) fn raised(&self) -> &[bool]
        ensures { result.now ≡ map (λ reply. reply.raised) self.now.all }
    {
        self.raised.as_slice()
    }

    /// One connection more is out. Makes the room for its reply.
    pub(crate) fn expect_one(&mut self) -> Result<(), AllocError>
        ensures ok { OnOk result (self.new ≡ record self.old { out = self.old.out + 1 }) }
        ensures err { OnErr result (self.new ≡ self.old) }
    {
        let Some(out) = self.out.checked_add(1) else {
            return Err(AllocError);
        };
        self.texts.reserve(out)?;
        self.raised.reserve(out)?;
        self.out = out;
        Ok(())
    }

    /// The reply to a connection that was out. It takes no memory.
    pub(crate) fn put(&mut self, text: Text8, raised: bool)
        requires { 0 < self.old.out }
        ensures { self.new ≡ record {
          all = self.old.all ++ record { text = text; raised = raised } ∷ [];
          out = self.old.out - 1;
        } }
    {
        self.texts.push_reserved(text);
        self.raised.push_reserved(raised);
        self.out -= 1;
    }
}
