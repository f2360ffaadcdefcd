// Laws of the definitions.
ghost use Rattle.ddc_model.specs.Laws.{OneContent, LinksFit, OneListOfNeeds, WholeStaysWhole};
ghost use Rattle.ddc_model.specs.Laws.{EmptyIsSound, SpaceStaysSound, UploadStaysSound, PutStaysSound, FinaliseStaysSound, GetStaysSound, DeleteStaysSound};
ghost use Rattle.ddc_model.specs.Laws.{SpaceIsLegal, UploadIsLegal, PutIsLegal, FinaliseIsLegal, GetIsLegal, DeleteIsLegal};
ghost use Rattle.ddc_model.specs.Laws.{ExpireStaysWhole, SweptStaysWhole, ExpireStaysSound, SweptStaysSound, ExpireRemoves, ExpireKeepsOthers, SweptRemoves, SweptKeepsOthers, LeavesBlobsAlone, EmptyHasLogs, LegalKeepsLogs};
ghost use Rattle.ddc_model.specs.Laws.{SoundServes, EmptyIsPlaced, LegalStaysPlaced, SpaceKeepsWhole, UploadKeepsWhole, PutKeepsWhole, FinaliseKeepsWhole, GetKeepsWhole, DeleteKeepsWhole};

/// Bytes have one list of links, and are an object or none.
pub fn one_content()
    ensures { OneContent }
{}

/// Each link of an object takes 20 bytes of it.
pub fn links_fit()
    ensures { LinksFit }
{}

/// What is missing of an object's closure is one list.
pub fn one_list_of_needs()
    ensures { OneListOfNeeds }
{}

/// An object whose closure is there keeps it, whatever blob is added that wasn't there.
pub fn whole_stays_whole()
    ensures { WholeStaysWhole }
{}

/// An empty cache is sound, and each command keeps a sound cache sound.
pub fn commands_stay_sound()
    ensures empty { EmptyIsSound }
    ensures space { SpaceStaysSound }
    ensures upload { UploadStaysSound }
    ensures put { PutStaysSound }
    ensures finalise { FinaliseStaysSound }
    ensures get { GetStaysSound }
    ensures delete { DeleteStaysSound }
{}

/// A sound cache serves all that its finalised references reach, with bytes of the hashes that name them.
pub fn sound_caches_serve()
    ensures { SoundServes }
{}

/// The blobs of a store keep apart in the blob file.
pub fn entries_stay_placed()
    ensures empty { EmptyIsPlaced }
    ensures legal { LegalStaysPlaced }
{}

/// Whatever the bytes of the blobs are, each finalised reference keeps its whole closure.
pub fn commands_keep_whole()
    ensures space { SpaceKeepsWhole }
    ensures upload { UploadKeepsWhole }
    ensures put { PutKeepsWhole }
    ensures finalise { FinaliseKeepsWhole }
    ensures get { GetKeepsWhole }
    ensures delete { DeleteKeepsWhole }
{}

/// The entry that a command makes is legal in the state before it.
pub fn entries_are_legal()
    ensures space { SpaceIsLegal }
    ensures upload { UploadIsLegal }
    ensures put { PutIsLegal }
    ensures finalise { FinaliseIsLegal }
    ensures get { GetIsLegal }
    ensures delete { DeleteIsLegal }
{}

/// The logs of an empty state are numbered, and a legal entry keeps them so.
pub fn entries_keep_logs()
    ensures empty { EmptyHasLogs }
    ensures legal { LegalKeepsLogs }
{}

/// What expires and what is swept leaves finalised references whole and a cache sound. Just the references and the blobs
/// that are named go, and only uploads, pins, puts and sweeps change blobs.
pub fn removals_keep_the_rest()
    ensures expire { ExpireStaysWhole }
    ensures swept { SweptStaysWhole }
    ensures expire_sound { ExpireStaysSound }
    ensures swept_sound { SweptStaysSound }
    ensures expire_removes { ExpireRemoves }
    ensures expire_others { ExpireKeepsOthers }
    ensures swept_removes { SweptRemoves }
    ensures swept_others { SweptKeepsOthers }
    ensures blobs { LeavesBlobsAlone }
{}
