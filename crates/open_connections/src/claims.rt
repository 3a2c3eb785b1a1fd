//! What connections hold of the memory that all share: what is asked for, granted and given back.
ghost use Rattle.std.specs.Prelude.{◌<◌, ◌≡◌, ◌^◌, length, [], None, Some, IfOk, IfSome, IsFalse, IsTrue, MatchOption, OnErr, OnOk};
ghost use Rattle.slab.specs.Slab.{get};
ghost use Rattle.connection_turns.specs.Held.{share_after};
ghost use Rattle.open_connections.specs.Joined.{Joined};
ghost use Rattle.open_connections.specs.Looping.{Stays};
ghost use Rattle.open_connections.specs.Opened.{lanes_of};
ghost use Rattle.open_connections.specs.Shares.{StayFree, IsGivenBack, claim_at, granted_next};
ghost use Rattle.open_connections.specs.Turns.{AreCovered, ClaimsStay, HasClaim, IsCovered, IsForReply, IsQueued, IsShort, StatesStay, WillCover};
ghost use Rattle.open_connections.specs.Woken.{StaysWoken, WakesOthers};

use crate::needs::{covers, is_for_reply, is_held, need, need_of_reply};
use crate::numbers::conn_of;
use crate::open::Open;
use connection_turns::{After, Ahead, Claim, LoopCore, Need, Purpose};
use socket_poll::{Peer, Time};
use std::alloc::AllocError;
use wire_frames::MOST_REPLY;

impl<S: Peer, C: LoopCore, T: Time + Drop> Open<S, C, T> {
    // Whether there is room for the reply to the first request that waits; where it takes a share, that is asked for. The reply's length is
    // looked at right before it is given, since other requests may change it. No share is asked for that is longer than any reply.
    pub(crate) fn may_answer(&mut self, key: usize, now: u64) -> Result<bool, AllocError>
        ensures lanes { Stays (lanes_of C.steps S.told self.old) (lanes_of C.steps S.told self.new) }
        ensures ready { StatesStay self.old self.new }
        ensures core { self.new.core ≡ self.old.core }
        ensures longs { self.new.due.longs ≡ self.old.due.longs }
        ensures queued { IfOk result (λ may. IsFalse may → key < 2 ^ 32 → IfSome (get self.old.connections key) (λ _. IsQueued key self.new)) }
        ensures covered { IfOk result (λ may. IsTrue may → AreCovered C.steps key self.old self.new) }
        ensures short { IfOk result (λ may. IsFalse may → key < 2 ^ 32 → IfSome (get self.old.connections key) (λ _. IsShort C.steps key self.old)) }
        ensures refused { OnErr result (key < 2 ^ 32 → IfSome (get self.old.connections key) (λ _. IsShort C.steps key self.old)) }
        ensures woken { WakesOthers key self.old self.new }
    {
        let Some(conn) = conn_of(key) else {
            return Ok(false);
        };
        let front = self.core.inner().front(conn);
        let Some(connection) = self.connections.get(key) else {
            return Ok(false);
        };
        if covers(connection.claim, front.most_reply) {
            return Ok(true);
        }
        if front.most_reply > MOST_REPLY {
            return Err(AllocError);
        }
        let reply = need_of_reply(&front);
        self.yield_share(key, now);
        self.claim(key, &reply, now)
    }

    // Gives up a share for a reply: a connection that waits for a query holds none. One for a frame is held as from now on.
    pub(crate) fn yield_reply(&mut self, key: usize, now: u64)
        ensures lanes { Stays (lanes_of C.steps S.told self.old) (lanes_of C.steps S.told self.new) }
        ensures ready { StatesStay self.old self.new }
        ensures core { self.new.core ≡ self.old.core }
        ensures longs { self.new.due.longs ≡ self.old.due.longs }
        ensures woken { WakesOthers key self.old self.new }
    {
        if is_for_reply(self.claim_of(key)) {
            self.yield_share(key, now);
            return;
        }
        if let Some(connection) = self.connections.get_mut(key) {
            connection.renew(now);
        }
    }

    // Gives up the share that a connection has, if any.
    fn yield_share(&mut self, key: usize, now: u64)
        ensures lanes { Stays (lanes_of C.steps S.told self.old) (lanes_of C.steps S.told self.new) }
        ensures ready { StatesStay self.old self.new }
        ensures core { self.new.core ≡ self.old.core }
        ensures longs { self.new.due.longs ≡ self.old.due.longs }
        ensures given { IsGivenBack (claim_at self.old.connections key) self.new.budgets }
        ensures woken { WakesOthers key self.old self.new }
    {
        self.release(key);
        self.grant(now);
    }

    // Gives back the share that a connection has or waits for. What it leaves is granted by [`Open::grant`].
    pub(crate) fn release(&mut self, key: usize)
        ensures lanes { Stays (lanes_of C.steps S.told self.old) (lanes_of C.steps S.told self.new) }
        ensures ready { StatesStay self.old self.new }
        ensures core { self.new.core ≡ self.old.core }
        ensures longs { self.new.due.longs ≡ self.old.due.longs }
        ensures given { IsGivenBack (claim_at self.old.connections key) self.new.budgets }
        ensures none { claim_at self.new.connections key ≡ None }
        ensures woken { WakesOthers key self.old self.new }
    {
        let Some(connection) = self.connections.get_mut(key) else {
            return;
        };
        let Some(claim) = connection.claim else {
            return;
        };
        connection.claim = None;
        self.budgets.release(&claim);
    }

    pub(crate) fn claim_of(&self, key: usize) -> Option<Claim>
        ensures { result ≡ claim_at self.now.connections key }
    {
        self.connections.get(key)?.claim
    }

    // Gives back what is done with of a connection's share.
    pub(crate) fn settle_claim(&mut self, key: usize, has_answered: bool, now: u64)
        ensures lanes { Stays (lanes_of C.steps S.told self.old) (lanes_of C.steps S.told self.new) }
        ensures ready { StatesStay self.old self.new }
        ensures core { self.new.core ≡ self.old.core }
        ensures given { IfSome (get self.old.connections key) (λ c. IfSome c.claim (λ claim. share_after claim (length c.outbox.owed) has_answered ≡ After.Released → IsGivenBack (Some claim) self.new.budgets)) }
        ensures woken { WakesOthers key self.old self.new }
    {
        let Some(connection) = self.connections.get_mut(key) else {
            return;
        };
        let Some(claim) = connection.claim else {
            return;
        };
        let owed = connection.outbox.owed().len();
        match claim.left(owed, has_answered) {
            After::Kept => {}
            After::Written => {
                connection.claim = Some(Claim {
                    purpose: Purpose::Written,
                    bytes: claim.bytes.min(owed),
                    ..claim
                });
                self.budgets.shrink(&claim, owed);
                self.grant(now);
            }
            After::Released => self.yield_share(key, now),
        }
    }

    // Asks for what the next step needs, where that is above what each may have.
    pub(crate) fn ask(
        &mut self,
        key: usize,
        front: Option<Ahead>,
        now: u64,
    ) -> Result<(), AllocError>
        ensures lanes { Stays (lanes_of C.steps S.told self.old) (lanes_of C.steps S.told self.new) }
        ensures ready { StatesStay self.old self.new }
        ensures core { self.new.core ≡ self.old.core }
        ensures woken { WakesOthers key self.old self.new }
    {
        let Some(connection) = self.connections.get(key) else {
            return Ok(());
        };
        if let Some(need) = need(connection, front) {
            self.claim(key, &need, now)?;
        }
        Ok(())
    }

    // Asks for a share, and tells whether it is granted. One that waits may come before those that wait already.
    fn claim(&mut self, key: usize, need: &Need, now: u64) -> Result<bool, AllocError>
        ensures lanes { Stays (lanes_of C.steps S.told self.old) (lanes_of C.steps S.told self.new) }
        ensures ready { StatesStay self.old self.new }
        ensures core { self.new.core ≡ self.old.core }
        ensures longs { self.new.due.longs ≡ self.old.due.longs }
        ensures queued { IfOk result (λ held. IsFalse held → IfSome (get self.old.connections key) (λ _. IsQueued key self.new)) }
        ensures covered { IfOk result (λ held. IsTrue held → Joined (claim_at self.old.connections) self.old.budgets → IsForReply need.now → IsCovered key need.now.bytes self.new) }
        ensures woken { WakesOthers key self.old self.new }
    {
        self.ask_for(key, need, now)?;
        self.grant(now);
        Ok(is_held(self.claim_of(key)))
    }

    // Asks for a share in the place of the one that the connection has.
    fn ask_for(&mut self, key: usize, need: &Need, now: u64) -> Result<(), AllocError>
        ensures lanes { Stays (lanes_of C.steps S.told self.old) (lanes_of C.steps S.told self.new) }
        ensures ready { StatesStay self.old self.new }
        ensures core { self.new.core ≡ self.old.core }
        ensures longs { self.new.due.longs ≡ self.old.due.longs }
        ensures claims { OnOk result (IfSome (get self.old.connections key) (λ _. HasClaim key self.new)) }
        ensures covers { OnOk result (Joined (claim_at self.old.connections) self.old.budgets → IsForReply need.now → WillCover key need.now.bytes self.new) }
        ensures woken { WakesOthers key self.old self.new }
    {
        self.release(key);
        let Some(connection) = self.connections.get_mut(key) else {
            return Ok(());
        };
        let claim = self.budgets.ask(key, need, now)?;
        connection.claim = Some(claim);
        Ok(())
    }

    // Grants what there is room for, in order. Those that hold their shares now get turns.
    pub(crate) fn grant(&mut self, now: u64)
        ensures lanes { Stays (lanes_of C.steps S.told self.old) (lanes_of C.steps S.told self.new) }
        ensures free { StayFree self.old.budgets self.new.budgets }
        ensures ready { StatesStay self.old self.new }
        ensures core { self.new.core ≡ self.old.core }
        ensures longs { self.new.due.longs ≡ self.old.due.longs }
        ensures claims { ClaimsStay self.old self.new }
        ensures woken { StaysWoken self.old self.new }
    {
        'shares: for _ in 0..u64::MAX {
            let Some(key) = self.grant_next(now) else {
                return;
            };
            self.add_turn(key);
        }
    }

    // Grants the next share that there is room for, and tells which connection holds it now.
    fn grant_next(&mut self, now: u64) -> Option<usize>
        ensures none { result ≡ None → granted_next self.old.budgets ≡ [] }
        ensures lanes { Stays (lanes_of C.steps S.told self.old) (lanes_of C.steps S.told self.new) }
        ensures free { StayFree self.old.budgets self.new.budgets }
        ensures ready { StatesStay self.old self.new }
        ensures core { self.new.core ≡ self.old.core }
        ensures longs { self.new.due.longs ≡ self.old.due.longs }
        ensures claims { ClaimsStay self.old self.new }
        ensures woken { MatchOption result (StaysWoken self.old self.new) (λ key. WakesOthers key self.old self.new) }
    {
        let share = self.budgets.next()?;
        if let Some(connection) = self.connections.get_mut(share.owner) {
            connection.hold(share.ticket, now);
        }
        Some(share.owner)
    }
}
